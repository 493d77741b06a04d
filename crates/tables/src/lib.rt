// Tables of tests: sets, rules and stores; the worked examples; numbers, sets and lines as a script writes them; and what is printed.
#![tactic(auto)]

#[cfg(test)]
mod examples;
#[cfg(test)]
mod lines;
#[cfg(test)]
mod pages;
#[cfg(test)]
mod readings;
#[cfg(test)]
mod rules;
#[cfg(test)]
mod shown;
#[cfg(test)]
mod words;
