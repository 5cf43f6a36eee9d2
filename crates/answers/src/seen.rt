// What a call answered, as a line shows it.
use clvm_allocator::answers::{
    CAnswer, CChildren, CLoaded, CNumber, COption, CPart, CRestored, CStatus, CVisited,
};
use rules::NIL;
use script::line::Answer;

// Code, node and values.
pub fn answer<const N: usize>(code: u32, node: u32, shown: [u64; N]) -> Answer {
    let mut values = [0; 6];
    for (value, x) in values.iter_mut().zip(&shown) {
        *value = *x;
    }
    Answer {
        code: u64::from(code),
        node: u64::from(node),
        values,
    }
}

// A number that comes with no code.
pub fn plain(n: u64) -> Answer {
    answer(0, NIL, [n])
}

// What the C library answers with.
pub trait Seen {
    fn seen(self) -> Answer;
}

impl Seen for CAnswer {
    fn seen(self) -> Answer {
        answer(self.code, self.node, [])
    }
}

impl Seen for CNumber {
    fn seen(self) -> Answer {
        answer(self.code, self.node, [self.value as u64])
    }
}

impl Seen for COption {
    fn seen(self) -> Answer {
        answer(
            self.code,
            self.node,
            [u64::from(self.some), u64::from(self.value)],
        )
    }
}

impl Seen for CVisited {
    fn seen(self) -> Answer {
        let shown = [u64::from(self.kind), self.first as u64, self.second as u64];
        answer(self.code, self.node, shown)
    }
}

impl Seen for CChildren {
    fn seen(self) -> Answer {
        let shown = [
            u64::from(self.is_pair),
            u64::from(self.first),
            u64::from(self.rest),
        ];
        answer(self.code, self.node, shown)
    }
}

impl Seen for CStatus {
    fn seen(self) -> Answer {
        let shown = [u64::from(self.status), self.start as u64, self.end as u64];
        answer(self.code, self.node, shown)
    }
}

impl Seen for CRestored {
    fn seen(self) -> Answer {
        answer(self.code, self.node, [u64::from(self.outcome)])
    }
}

impl Seen for CLoaded {
    fn seen(self) -> Answer {
        answer(self.code, self.node, [self.at as u64])
    }
}

// The part of an atom, with the scratch that it may lie in: at most eight bytes, as a big-endian number.
pub fn part(part: CPart, scratch: &[u8]) -> Answer {
    let mut number: u64 = 0;
    for b in scratch {
        number = (number << 8) | u64::from(*b);
    }
    let shown = [
        u64::from(part.place),
        part.offset as u64,
        part.length as u64,
        number,
    ];
    answer(part.code, part.node, shown)
}
