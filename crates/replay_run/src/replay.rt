//! The top call: a whole script, from a source to a sink.

ghost use Rattle.std.specs.Prelude.{◌≡◌, ◌⊎◌, ℕ, List, [], All, length, map};
ghost use Rattle.far_io.specs.Adds.{AddsPrefix};
ghost use Rattle.far_io.specs.Faults.{Rose, Follows};
ghost use Rattle.karma_rule.specs.Limits.{IsStore};
ghost use Rattle.run_end.specs.LastLines.{no_memory_line};
ghost use Rattle.run_end.specs.Why.{end_of, EndsWith};
ghost use Rattle.line_run.specs.Runs.{reading};
ghost use Rattle.replay_run.specs.Trace.{TracedLine, IsTraced, EntryFits, script_of, output_of, events_of, run_of, shown};
ghost use Rattle.replay_run.specs.Replays.{ReplaysTo, SendsNoMemory, serving};

use crate::taker::Replaying;
use far_core::{Core, Ran};
use far_io::{LineBuf, Sink, Source, WriteFault, WriteRoom};
use karma_rule::Shape;
use line_run::run_lines;
use run_end::{MOST_LINE, Why, put_no_memory};
use shelf_link::Shelf;
use std::alloc::Global;
use tenant_world::Tenant;

/// Writes `nomemory`, as far as the sink takes it.
fn end_without_memory<O: Sink>(sink: &mut O) -> Why
    ensures end { result ≡ Why.NoMemory }
    ensures sends { SendsNoMemory O.took O.faults sink.old sink.new }
    ensures faults { Follows (O.faults sink.old) (O.faults sink.new) }
{
    match put_no_memory(sink) {
        Ok(()) | Err(WriteFault) => Why::NoMemory,
    }
}

/// What a run answers with its reason: why it ended, and the tenants of its core in the order of their users, if it had a core.
#[derive(Drop)]
pub struct RanTold<K> {
    pub why: Why,
    pub tenants: Vec<Tenant<K>>,
}

/// What a replay answers that found no memory for a core, after it wrote so.
fn without_core<K, O: Sink>(alloc: Global, sink: &mut O) -> RanTold<K>
    ensures end { result.why ≡ Why.NoMemory }
    ensures tenants { result.tenants.items ≡ [] }
    ensures sends { SendsNoMemory O.took O.faults sink.old sink.new }
    ensures faults { Follows (O.faults sink.old) (O.faults sink.new) }
{
    RanTold {
        why: end_without_memory(sink),
        tenants: Vec::new(alloc),
    }
}

/// Runs a script: each of its lines is an event of a core of one user's, and its outcome and moves are written as lines. It
/// ends at the end of the script, at the first bad line, whose number it writes, or where a line stands after 2^32 lines,
/// with a last line `spent`. For want of memory the last line is `nomemory`, as far as the sink takes it.
///
/// It takes the users' stores, in the order of the users, and answers why the run ended and the users' tenants over these
/// stores, which stand for the run; none where there was no memory for a core. One line, one outcome and 64 KiB of output are
/// kept at a time. `docs/FORMATS.md` has the lines.
pub fn replay_told<K: Shelf + Drop, S: Source, O: Sink>(
    alloc: Global,
    shape: Shape,
    shelves: Vec<K>,
    source: &mut S,
    sink: &mut O,
) -> RanTold<K>
    requires within { IsStore shape }
    requires one_user { shape.users ≡ 1 }
    requires shelves { length shelves.items ≡ shape.users }
    ensures came_to { ReplaysTo (reading S.left S.faults source.old source.new)
        (serving K.told K.faults shelves.items result.tenants.items)
        O.took O.faults sink.old sink.new shape (end_of result.why) }

    // One spelling: the lines of a script are those of one list of events alone.
    ensures one_script { (one other : List TracedLine) → All IsTraced one → All IsTraced other
        → script_of one ≡ script_of other → events_of (run_of one) ≡ events_of (run_of other) }

    // A script and an output have one trace at most, but for the counts of faults, which they don't show.
    ensures one_trace { (one other : List TracedLine) → All IsTraced one → All IsTraced other
        → All EntryFits (run_of one) → All EntryFits (run_of other)
        → script_of one ≡ script_of other → output_of one ≡ output_of other → map shown one ≡ map shown other }
{
    let Ok(mut line) = LineBuf::new(alloc, MOST_LINE) else {
        return without_core(alloc, sink);
    };
    let Ok(mut room) = WriteRoom::new(alloc) else {
        return without_core(alloc, sink);
    };
    let Ok(core) = Core::new(alloc, shape, shelves) else {
        return without_core(alloc, sink);
    };
    let mut replaying = Replaying {
        alloc,
        core,
        number: 0,
    };
    let why = run_lines(&mut replaying, &mut line, &mut room, source, sink);
    let Replaying {
        alloc: _,
        core,
        number: _,
    } = replaying;
    RanTold {
        why,
        tenants: core.finish(),
    }
}

/// Runs a script as `replay_told` does, and answers the number of its status: 0 at the end, 3 at a bad line, 4 where the
/// source failed, 5 where the sink failed, 6 for want of memory, 7 where the lines are spent. With it come the tenants.
pub fn run_replay<K: Shelf + Drop, S: Source, O: Sink>(
    alloc: Global,
    shape: Shape,
    shelves: Vec<K>,
    source: &mut S,
    sink: &mut O,
) -> Ran<K>
    requires within { IsStore shape }
    requires one_user { shape.users ≡ 1 }
    requires shelves { length shelves.items ≡ shape.users }
    ensures { EndsWith result.status (ReplaysTo (reading S.left S.faults source.old source.new)
        (serving K.told K.faults shelves.items result.tenants.items) O.took O.faults sink.old sink.new shape) }
{
    let RanTold { why, tenants } = replay_told(alloc, shape, shelves, source, sink);
    Ran {
        status: why.status().code(),
        tenants,
    }
}
