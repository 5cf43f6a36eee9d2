// The record and the checkpoints, as the C library's functions are lent them, and as a line has them: numbers in the header's order.
use rules::{Allocator, Checkpoint, Counts};
use script::call::{Plain, Transparent};
use script::line::Record;

pub fn record(&[a, p, b, ghost_a, ghost_p, ghost_b, limit]: &Record) -> Allocator {
    Allocator {
        used: transparent(&[a, p, b]),
        ghosts: transparent(&[ghost_a, ghost_p, ghost_b]),
        limit: limit as usize,
    }
}

pub fn record_of(lent: &Allocator) -> Record {
    let [a, p, b] = transparent_of(&lent.used);
    let [ghost_a, ghost_p, ghost_b] = transparent_of(&lent.ghosts);
    [a, p, b, ghost_a, ghost_p, ghost_b, lent.limit as u64]
}

pub fn plain(&[a, p, b, ghost_a, ghost_p, ghost_b]: &Plain) -> Checkpoint {
    Checkpoint {
        used: transparent(&[a, p, b]),
        ghosts: transparent(&[ghost_a, ghost_p, ghost_b]),
    }
}

pub fn plain_of(lent: &Checkpoint) -> Plain {
    let [a, p, b] = transparent_of(&lent.used);
    let [ghost_a, ghost_p, ghost_b] = transparent_of(&lent.ghosts);
    [a, p, b, ghost_a, ghost_p, ghost_b]
}

pub fn transparent(&[atoms, pairs, bytes]: &Transparent) -> Counts {
    Counts {
        atoms: atoms as usize,
        pairs: pairs as usize,
        bytes: bytes as usize,
    }
}

pub fn transparent_of(lent: &Counts) -> Transparent {
    [lent.atoms as u64, lent.pairs as u64, lent.bytes as u64]
}
