//! The making of a board and of its passes, and the end.
ghost use Rattle.std.specs.Prelude.{◌≡◌, ◌+◌, ◌<◌, IfOk, IsTrue, Some, length};
ghost use Rattle.deck_core.specs.contract.Told.{IsOpening};
ghost use Rattle.deck_core.specs.declared.plain.note_words.TheConstants.{NOTE_WORDS};
ghost use Rattle.deck_core.specs.declared.plain.phase.Phase.TheVariants.{Run};
ghost use Rattle.deck_core.specs.declared.plain.phase.Place.TheVariants.{Peek};
ghost use Rattle.board_turn.specs.Ready.{AllDone, AreAll, AreFirst, IsFresh, IsReady, first_start, start_of};
ghost use Rattle.board_turn.specs.Rule.{IsOrigin};
ghost use Rattle.board_turn.specs.Shown.{standing_of};

use crate::plays::{JoinSeat, SplitSeat};
use crate::{Board, GATE, Key, NOTES, Pass, Seated, Slot, Standing, WORDS};
use atomic_table::Table;
use deck_core::{Answer, Bus, NOTE_WORDS, Phase, Place};
use mach_base::{Hart, OutOfMemory};
use std::alloc::Global;
use std::snapshot::Snapshot;

/// Where a hart stands before its first tick.
fn standing(hart: u8, harts: u8, limit: u32, made: u8) -> Standing
    ensures { result ≡ standing_of hart harts limit made }
{
    Standing {
        hart: Hart(hart),
        harts,
        limit,
        phase: Phase::Run,
        place: Place::Peek,
        gate: 0,
        made,
    }
}

/// The words of a board whose bus has these notes.
fn first_words(notes: [u64; NOTE_WORDS]) -> [u64; WORDS]
    ensures { AreFirst result notes NOTE_WORDS }
{
    let mut words = [0; WORDS];
    words[GATE] = 2;
    for k in 0..NOTE_WORDS {
        words[NOTES + k] = notes[k];
    }
    words
}

impl<B: Bus> Board<B> {
    /// A board over a bus on which nothing has happened, and the pass of hart 0. `limit` is the number of rounds after which
    /// a gathering ends.
    pub fn new(alloc: Global, bus: B, limit: u32) -> Result<Seated<B>, OutOfMemory>
        requires bus { IsOpening (B.told bus) }
        requires rounds { 0 < limit }
        ensures first { IfOk result (λ seated. IsFresh seated.board.table.shared.table_id (Some bus) 0 (B.told bus).harts limit 1 seated.first) }
    {
        let harts = bus.harts();
        let words = first_words(bus.notes().to_words());
        let key = Key {
            start: Snapshot::of(&bus),
            harts,
            limit,
        };
        let mut slots = Vec::with_capacity(alloc, 1)?;
        slots.push(Some(Slot {
            bus,
            last: Answer::Send,
        }))?;
        let Ok((table, seat)) = Table::new(alloc, &words, slots, &key) else {
            return Err(OutOfMemory);
        };
        Ok(Seated {
            board: Board { table },
            first: Pass {
                stand: standing(0, harts, limit, 1),
                seat,
            },
        })
    }

    /// The pass of the next hart. It is made from that of hart 0, which keeps how many there are.
    pub fn split(&self, pass: &mut Pass<B>) -> Pass<B>
        requires ready { IsReady self.now.table.shared.table_id pass.old }
        requires first { pass.old.stand.hart.0 ≡ 0 }
        requires phase { pass.old.stand.phase ≡ Run }
        requires place { pass.old.stand.place ≡ Peek }
        requires more { pass.old.stand.made < pass.old.stand.harts }
        ensures stand { pass.new.stand ≡ record (pass.old.stand) { made = pass.old.stand.made + 1 } }
        ensures ready { IsReady self.now.table.shared.table_id pass.new }
        ensures start { start_of pass.new ≡ start_of pass.old }
        ensures next { IsFresh self.now.table.shared.table_id (start_of pass.old) pass.old.stand.made pass.old.stand.harts pass.old.stand.limit 0 result }
    {
        let seat = self.table.shared.split_seat::<SplitSeat>(&mut pass.seat);
        let at = pass.stand;
        pass.stand.made += 1;
        Pass {
            stand: standing(at.made, at.harts, at.limit, 0),
            seat,
        }
    }

    /// Joins the other passes to hart 0's, the last first.
    fn join(&self, first: &mut Pass<B>, others: Vec<Pass<B>>)
        requires ready { IsReady self.now.table.shared.table_id first.old }
        requires hart { first.old.stand.hart.0 ≡ 0 }
        requires place { first.old.stand.place ≡ Peek }
        requires all { first.old.stand.made ≡ length others.items + 1 }
        requires done { AllDone self.now.table.shared.table_id (start_of first.old) 1 others.items }
        ensures table { first.new.seat.table_id ≡ first.old.seat.table_id }
        ensures joined { first.new.seat.me.0 ≡ record (first.old.seat.me.0) { left = 1 } }
    {
        let mut others = others;
        while let Some(last) = others.pop() {
            let Pass { stand: _, seat } = last;
            self.table
                .shared
                .join_seat::<JoinSeat>(&mut first.seat, seat);
        }
    }

    /// The bus at the end. The passes are all that were made, in the order of their harts, and each has seen an ending. So
    /// one stands, or a line ran out of memory; and the bus has the origin of the one that the board was made with.
    pub fn finish(self, passes: Vec<Pass<B>>) -> B
        requires { AreAll self.table.shared.table_id passes.items }
        ensures origin { IsOrigin B.SameOrigin (first_start passes.items) result }
        ensures over { IsTrue (B.told result).over }
    {
        let mut passes = passes;
        let mut first = passes.remove(0);
        self.join(&mut first, passes);
        let Pass { stand: _, seat } = first;
        let Board { table } = self;
        let mut closed = table.close_with(seat);
        let slot = closed.take(0);
        closed.free();
        match slot {
            Some(Slot { bus, last: _ }) => bus,
            None => unreachable!(),
        }
    }
}
