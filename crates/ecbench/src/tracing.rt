// What `trace` counts and prints.
ghost use Rattle.std.specs.Prelude.{◌≡◌, ◌≤◌, ◌<◌, ◌+◌, ◌^◌, [], ◌∷◌, drop, length, count_by};
ghost use Rattle.flash_dev.specs.Counts.{Rose};
ghost use Rattle.ec_model.specs.Upset.{is_world};
ghost use Rattle.bench_wire.specs.BenchView.{wire_view};
ghost use Rattle.ecbench.specs.Serving.{ServesTrace};
ghost use Rattle.ecbench.specs.Tracing.{is_access, is_tick, counts_text, AreCounted};

use crate::marking::begin;
use crate::run::Exit;
use bench_io::{LineText, Sink, print};
use bench_wire::Bench;
use ec_model::{Entry, Event};
use ec_wire::{Bus, Journal};
use flash_dev::FlashDev;

/// How many entries of each kind there are.
#[derive(Clone, Copy)]
pub struct Counts {
    accesses: usize,
    ticks: usize,
    world_events: usize,
}

impl Counts {
    /// Of the entries of a journal from an index on.
    pub fn since(journal: &Journal, since: usize) -> Counts
        requires { since ≤ length journal.now.entries }
        ensures { AreCounted result (drop since journal.now.entries) }
    {
        let mut counts = Counts {
            accesses: 0,
            ticks: 0,
            world_events: 0,
        };
        for i in since..journal.len() {
            counts.add(journal.get(i));
        }
        counts
    }

    // One entry more.
    fn add(&mut self, entry: Entry)
        requires accesses { self.old.accesses + 1 < 2 ^ 64 }
        requires ticks { self.old.ticks + 1 < 2 ^ 64 }
        requires world { self.old.world_events + 1 < 2 ^ 64 }
        ensures accesses { self.new.accesses ≡ self.old.accesses + count_by is_access (entry ∷ []) }
        ensures ticks { self.new.ticks ≡ self.old.ticks + count_by is_tick (entry ∷ []) }
        ensures world { self.new.world_events ≡ self.old.world_events + count_by is_world (entry ∷ []) }
    {
        match entry {
            Entry::Step {
                event: Event::Access { .. },
                ..
            } => self.accesses += 1,
            Entry::Step {
                event: Event::Tick,
                ..
            } => self.ticks += 1,
            Entry::Step { .. } => self.world_events += 1,
            Entry::Mark { .. } => {}
        }
    }

    /// Puts them into words.
    pub fn print_to(&self, text: &mut LineText)
        requires { text.old ≡ [] }
        ensures text { text.new ≡ counts_text self.now.accesses self.now.ticks self.now.world_events }
        ensures short { length text.new ≤ 200 }
    {
        text.append_count(b"trace: ", self.accesses);
        text.append_count(b" accesses, ", self.ticks);
        text.append_count(b" ticks, ", self.world_events);
        text.append(b" world events");
    }
}

/// The entries of the last line that did something are counted, which begin at `since`, and the counts printed.
pub fn serve_trace<B: Bus + Drop, F: FlashDev, K: Sink>(
    bench: &mut Bench<B, F>,
    number: u32,
    since: usize,
    text: &mut LineText,
    sink: &mut K,
) -> Result<(), Exit>
    requires { since ≤ length bench.old.entries }
    ensures serves { ServesTrace result number (drop since bench.old.entries) (wire_view B.bus bench.old)
        (wire_view B.bus bench.new) (K.written sink.old) (K.written sink.new) }
    ensures sink_fault { result ≡ Err Exit.SinkFault → Rose (K.faults sink.old) (K.faults sink.new) }
    ensures later { K.faults sink.old ≤ K.faults sink.new }
{
    let counts = Counts::since(bench.journal(), since);
    begin(bench, number)?;
    text.clear();
    counts.print_to(text);
    text.append(b"\n");
    print(sink, text.as_bytes())?;
    Ok(())
}
