// Calls at one replica, as a script writes them. The readers give `Option`, as those of words do: `parse` names the one error.
use super::words::{end, first_word, three_words, two_words};
use operands::{members, number, number8, number32};
use runs::{Call, Work};
use stores::{Head, Stamp};

fn view(rest: &[u8]) -> Option<Work> {
    let (replica, stamp, set) = three_words(rest)?;
    let head = Head {
        stamp: Stamp(number32(stamp)?),
        set: members(set)?,
    };
    Some(Work::View(number8(replica)?, head))
}

fn deliver(rest: &[u8]) -> Option<Work> {
    let (replica, index) = two_words(rest)?;
    Some(Work::Deliver(number8(replica)?, number(index)?))
}

fn loss(rest: &[u8]) -> Option<Work> {
    let (replica, lost) = two_words(rest)?;
    Some(Work::Loss(number8(replica)?, number8(lost)?))
}

fn only_replica(rest: &[u8]) -> Option<u8> {
    let (replica, rest) = first_word(rest)?;
    end(rest)?;
    number8(replica)
}

// Work that a word names, with its operands.
pub fn read_work(word: &[u8], rest: &[u8]) -> Option<Work> {
    match word {
        b"view" => view(rest),
        b"deliver" => deliver(rest),
        b"loss" => loss(rest),
        b"start" => Some(Work::Start(only_replica(rest)?)),
        _ => None,
    }
}

pub fn stop(rest: &[u8]) -> Option<Call> {
    Some(Call::Stop(only_replica(rest)?))
}

// A cut: after how many byte-writes, and the words of the work that is broken off.
pub fn cut(rest: &[u8]) -> Option<Call> {
    let (writes, rest) = first_word(rest)?;
    let (word, rest) = first_word(rest)?;
    Some(Call::Cut(read_work(word, rest)?, number(writes)?))
}
