// The emissions of a single point: planned, as drafts one after the other, before the room is asked for; then written.
ghost use Rattle.std.specs.Prelude.{◌≡◌, true, ◌+◌, ◌≤◌, length};
ghost use Rattle.promise.specs.Laid.{lay};
ghost use Rattle.words.specs.Geometries.{max_words};
ghost use Rattle.encoder.specs.Emitting.{emitted_at};
ghost use Rattle.encoder.specs.Planning.{plan_limit, Ready, Few};
ghost use Rattle.encoder.specs.Pushed.{command};
ghost use Rattle.encoder.specs.Drafts.{state_in, emitted_if, Near, Planned, Writable, WritableIf, EndsFit, laid_ends, AllFit, laid_all};

use crate::boundary::Ends;
use crate::commands::push_command;
use crate::draft::{Draft, emit_point, is_again};
use crate::pen::write_steps;
use crate::points::last_of;
use clip::Pt;

// The drafts after each of a point's emissions.
#[derive(Clone, Copy)]
pub(crate) struct Plan {
    first: Draft,
    second: Draft,
    pub last: Draft,
}

// ---- planning
fn emit_if(d: Draft, end: Option<Pt>) -> Draft
    requires ready { Ready plan_limit (state_in d) }
    requires few { Few 1 (state_in d) }
    ensures { state_in result ≡ (emitted_if (state_in d) end).next }
{
    match end {
        None => d,
        Some(q) => emit_point(d, q),
    }
}

// The ends that moved, then q.
pub(crate) fn plan_point(d: Draft, ends: Ends, q: Pt) -> Plan
    requires ready { Ready max_words (state_in d) }
    requires few { Few 3 (state_in d) }
    requires near { Near ends q }
    ensures { Planned result d ends q }
{
    let first = emit_if(d, ends.end0);
    // The second end is asked for here and not by `emit_if` (docs/DECISIONS.md, `encoder`).
    let Some(c1) = ends.end1 else {
        let only = emit_point(first, q);
        return Plan {
            first,
            second: first,
            last: only,
        };
    };
    let second = emit_point(first, c1);
    let last = emit_point(second, q);
    Plan {
        first,
        second,
        last,
    }
}

// ---- writing
fn write_command(kind: u32, count: usize, at: usize, words: &mut [u32])
    requires { at + length (command kind count) ≤ length words.old }
    ensures { words.new ≡ lay at (command kind count) words.old }
{
    if let Some(w) = push_command(kind, count) {
        words[at] = w;
    }
}

// The words between a draft and the next: a command where one is due, then the steps from the point before the last.
pub(crate) fn write_point(d: Draft, next: Draft, q: Pt, words: &mut [u32])
    requires { Writable d next q (length words.old) }
    ensures { words.new ≡ lay (emitted_at (state_in d) q).at (emitted_at (state_in d) q).run words.old }
{
    if is_again(d, q) {
        return;
    }
    write_command(d.kind, d.pen.count, d.pen.used, words);
    let from = last_of(next.has0.then_some(next.pen.pt0));
    write_steps(next.pen.used - 2, from, q, words)
}

fn write_if(d: Draft, next: Draft, end: Option<Pt>, words: &mut [u32])
    requires { WritableIf d next end (length words.old) }
    ensures { words.new ≡ lay (emitted_if (state_in d) end).at (emitted_if (state_in d) end).run words.old }
{
    if let Some(q) = end {
        write_point(d, next, q, words);
    }
}

fn write_ends(d: Draft, plan: Plan, ends: Ends, words: &mut [u32])
    requires { EndsFit d plan ends (length words.old) }
    ensures { words.new ≡ laid_ends d plan ends words.old }
{
    write_if(d, plan.first, ends.end0, words);
    write_if(plan.first, plan.second, ends.end1, words)
}

// Everything that the plan says.
pub(crate) fn write_plan(d: Draft, plan: Plan, ends: Ends, q: Pt, words: &mut [u32])
    requires { AllFit d plan ends q (length words.old) }
    ensures { words.new ≡ laid_all d plan ends q words.old }
{
    write_ends(d, plan, ends, words);
    write_point(plan.second, plan.last, q, words)
}
