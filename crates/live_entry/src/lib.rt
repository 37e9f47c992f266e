// The entry of a live run, reckoned when it is asked for from the readings that the run holds.
#![tactic(auto)]

ghost use Rattle.std.specs.Prelude.{length};
ghost use Rattle.recording.specs.Output.{Answers};
ghost use Rattle.live_entry.specs.Call.{held_entry_of};

use refusal::Refusal;

// THE ENTRY OF A RUN is written. The run is only read.
pub fn entry_of_run(live: &[u8], out: &mut [u8]) -> Result<usize, Refusal>
    ensures { Answers (held_entry_of live.now (length out.old)) out.old result out.new }
{
    if live_state::is_none(live) {
        return Err(Refusal::BadMarks);
    }
    let held = number::word_at(live, live_state::RUN + live_state::HELD) as usize;
    entry::of_records(
        &live[live_state::READINGS..live_state::READINGS + 16 * held],
        held,
        out,
    )
}
