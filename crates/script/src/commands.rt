// The commands of a script.
use super::calls::{cut, read_work, stop};
use super::words::{content, end, first_word, three_words, two_words};
use manager::Need;
use operands::{members, number8, number32};
use quorum::ReplicaSet;
use runs::Call;
use std::error::Error;
use std::fmt;
use stores::{Number, View};

#[derive(Clone, Copy, PartialEq, Eq, Debug)]
pub enum Command {
    // A new floor with the count rule.
    FloorCount,
    // A new floor with the weight rule of these weights.
    FloorWeight([u8; 16]),
    // The first view, and how many States are wanted.
    Found(View, Need),
    // A call at one replica.
    Call(Call),
    // Does the part carry the set by the floor's rule?
    Carries(ReplicaSet, ReplicaSet),
    // Print the account.
    Account,
}

// The words of a line fit no command.
#[derive(Clone, Copy, PartialEq, Eq, Debug)]
pub struct NotUnderstood;

impl fmt::Display for NotUnderstood {
    fn fmt<W: fmt::Write>(&self, f: &mut fmt::Formatter<W>) -> fmt::Result {
        f.write_str("not understood")
    }
}

impl Error for NotUnderstood {}

fn weights(rest: &[u8]) -> Option<Command> {
    let mut weights = [0; 16];
    let mut rest = rest;
    for weight in &mut weights {
        let (word, after) = first_word(rest)?;
        *weight = number8(word)?;
        rest = after;
    }
    end(rest)?;
    Some(Command::FloorWeight(weights))
}

fn floor(rest: &[u8]) -> Option<Command> {
    let (rule, rest) = first_word(rest)?;
    match rule {
        b"count" => {
            end(rest)?;
            Some(Command::FloorCount)
        }
        b"weight" => weights(rest),
        _ => None,
    }
}

// How many States a founded floor wants: one, or more than half.
fn read_need(word: &[u8]) -> Option<Need> {
    match word {
        b"one" => Some(Need::One),
        b"half" => Some(Need::MoreThanHalf),
        _ => None,
    }
}

fn found(rest: &[u8]) -> Option<Command> {
    let (set, number, need) = three_words(rest)?;
    let view = View {
        number: Number(number32(number)?),
        set: members(set)?,
    };
    Some(Command::Found(view, read_need(need)?))
}

fn carries(rest: &[u8]) -> Option<Command> {
    let (part, set) = two_words(rest)?;
    Some(Command::Carries(members(part)?, members(set)?))
}

fn account(rest: &[u8]) -> Option<Command> {
    end(rest)?;
    Some(Command::Account)
}

// A call at one replica: a stop, a cut, or work that is done whole.
fn call(word: &[u8], rest: &[u8]) -> Option<Command> {
    let call = match word {
        b"stop" => stop(rest)?,
        b"cut" => cut(rest)?,
        _ => Call::Whole(read_work(word, rest)?),
    };
    Some(Command::Call(call))
}

fn understand(word: &[u8], rest: &[u8]) -> Option<Command> {
    match word {
        b"floor" => floor(rest),
        b"found" => found(rest),
        b"carries" => carries(rest),
        b"account" => account(rest),
        _ => call(word, rest),
    }
}

// What a line says; nothing where it is blank. Any bytes may come, and any number of them.
pub fn parse(line: &[u8]) -> Result<Option<Command>, NotUnderstood> {
    first_word(content(line))
        .map(|(word, rest)| understand(word, rest).ok_or(NotUnderstood))
        .transpose()
}
