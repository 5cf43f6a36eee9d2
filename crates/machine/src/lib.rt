// The machine of the request program between two records, and what a request does to it and to the lent lists.
#![tactic(auto)]

mod calls;

ghost use Rattle.std.specs.Prelude.{◌≡◌};
ghost use Rattle.std.proofs.Math.Option.{none};
ghost use Rattle.rules.specs.Said.{says, says_of};
ghost use Rattle.rules.specs.State.{together};
ghost use Rattle.rules.specs.Record.{checkpoint};
ghost use Rattle.rules.specs.Lent.{store_lent, pair_store_of, lists_lent, SameStore};
ghost use Rattle.rules.specs.Paper.{said_by, option_paper, verdict_paper, maybe_paper};
ghost use Rattle.request.specs.Request.{request_is, meant, way_of, restoring};
ghost use Rattle.machine.specs.Machine.{told_of, tells, fresh_machine, with_state, did_of, did_take, shown_by, did_restore, acted, act_of, SameStores};
ghost use Rattle.machine.specs.Sane.{Sane};

use request::{Request, Way};
use rules::{
    Allocator, AtomStore, Checkpoint, Code, Counts, MaybeRestore, NIL, PairSlots, Refusal, Stores,
    need,
};

// The code of a bad record, which ends the run: the request program's own.
pub const BAD_RECORD: usize = 16;
// The most checkpoints.
const CHECKPOINTS: usize = 32;

// The record, how many rows are shown, what restores released, and the checkpoints taken, by their number.
#[derive(Clone, Copy)]
pub struct Machine {
    pub state: Allocator,
    pub shown: usize,
    pub released: usize,
    pub taken: usize,
    pub checkpoints: [Checkpoint; 32],
}

// What a request is told: the code, 0 where it was accepted, and the node that the answer names, if it does; a refusal names the node of
// document 01's table.
#[derive(Clone, Copy)]
pub struct Told {
    pub code: usize,
    pub node: Option<u32>,
}

impl From<Result<Option<u32>, Refusal>> for Told {
    ghost use Rattle.std.specs.Prelude.{◌≡◌};
    ghost use Rattle.rules.specs.Paper.{said_by, option_paper};
    ghost use Rattle.machine.specs.Machine.{tells};

    ghost from_gives = { λ answer told. told ≡ tells (said_by option_paper answer) };

    fn from(answer: Result<Option<u32>, Refusal>) -> Told {
        match answer {
            Ok(node) => Told { code: 0, node },
            Err(Refusal { code, node }) => Told {
                code: u32::from(code) as usize,
                node: Some(node),
            },
        }
    }
}

impl Machine {
    // Before the first record.
    pub fn new() -> Machine
        ensures { result ≡ fresh_machine }
    {
        let none = Counts {
            atoms: 0,
            pairs: 0,
            bytes: 0,
        };
        let checkpoint = Checkpoint {
            used: none,
            ghosts: none,
        };
        Machine {
            state: state::record::fresh(state::record::TOP),
            shown: 0,
            released: 0,
            taken: 0,
            checkpoints: [checkpoint; 32],
        }
    }

    // A checkpoint goes into the next free place; numbers are never freed, and the 33rd takes none.
    fn keep(&mut self, k: Checkpoint) -> Result<(), Refusal>
        requires { Sane self.old }
        ensures { did_of self.new (tells (says_of (λ d. none) (verdict_paper result))) ≡ did_take self.old (says k) }
    {
        need(self.taken < CHECKPOINTS, Code::Full, NIL)?;
        self.checkpoints[self.taken] = k;
        self.taken += 1;
        Ok(())
    }

    // Takes a plain checkpoint.
    fn take(&mut self) -> Result<(), Refusal>
        requires { Sane self.old }
        ensures { did_of self.new (tells (says_of (λ d. none) (verdict_paper result))) ≡ did_take self.old (checkpoint self.old.state) }
    {
        let k = state::checkpoint(&self.state)?;
        self.keep(k)
    }

    // After an accepted restore to k of the record as it was before: what it released is counted; Aborted restored nothing, so it releases
    // nothing. Answers the node that the row shows.
    fn back(
        &mut self,
        k: &Counts,
        way: Way,
        before: Allocator,
        outcome: MaybeRestore,
    ) -> Option<u32>
        requires { Sane (with_state self.old before) }
        ensures { did_of self.new (told_of 0 result)
            ≡ did_restore (with_state self.old before) k.now (way_of way) (says (maybe_paper outcome)) self.old.state }
    {
        let shown = match outcome {
            MaybeRestore::Aborted => return None,
            MaybeRestore::NoReplace => shown_by(way),
            MaybeRestore::Replace(n) => Some(n),
        };
        self.released += state::record::savings(*k, before);
        shown
    }

    // Goes back to the checkpoint of a number. One that was not taken gives 11, before anything else.
    fn restore(
        &mut self,
        store: &mut AtomStore,
        pairs: PairSlots,
        way: Way,
        i: usize,
    ) -> Result<Option<u32>, Refusal>
        requires { Sane self.old }
        ensures value { acted (did_of self.new (tells (said_by option_paper result))) (together (store_lent store.new) (pair_store_of pairs.entry))
            ≡ act_of self.old (together (store_lent store.old) (pair_store_of pairs.entry)) (restoring (way_of way) i) }
        ensures same { SameStore store.old store.new }
    {
        need(i < self.taken, Code::NotUsable, NIL)?;
        let k = self.checkpoints[i];
        let before = self.state;
        let outcome = calls::go_back(&mut self.state, store, pairs, way, &k)?;
        Ok(self.back(&k.used, way, before, outcome))
    }

    // What a record asks; a bad one asks nothing, and does nothing.
    pub fn act(&mut self, stores: &mut Stores, request: Option<Request>) -> Told
        requires { Sane self.old }
        ensures value { acted (did_of self.new result) (lists_lent stores.new)
            ≡ act_of self.old (lists_lent stores.old) (meant request.entry) }
        ensures same { SameStores stores.old stores.new }
    {
        match request {
            Some(request) => Told::from(self.perform(stores, request)),
            None => bad(),
        }
    }

    // What a request does.
    pub fn perform(&mut self, stores: &mut Stores, request: Request) -> Result<Option<u32>, Refusal>
        requires { Sane self.old }
        ensures value { acted (did_of self.new (tells (said_by option_paper result))) (lists_lent stores.new)
            ≡ act_of self.old (lists_lent stores.old) (request_is request.entry) }
        ensures same { SameStores stores.old stores.new }
    {
        match request {
            Request::Make(making) => { calls::make(&mut self.state, stores, making) }
            Request::TakeCheckpoint => self.take().map(|_| None),
            Request::Restore(way, i) => {
                let pairs = &stores.pairs;
                self.restore(&mut stores.atoms, pairs.slots(), way, i)
            }
        }
    }
}

// A bad record: 16, and no node.
pub fn bad() -> Told
    ensures { result ≡ told_of 16 None }
{
    Told {
        code: BAD_RECORD,
        node: None,
    }
}

// A restore that replaced no node names the one that it was given, if it was given one.
fn shown_by(way: Way) -> Option<u32>
    ensures { result ≡ shown_by (way_of way) }
{
    match way {
        Way::Plainly | Way::Transparently => None,
        Way::WithNode(n) => Some(n),
    }
}
