// One line of the cab program.
ghost use Rattle.std.specs.Prelude.{◌≡◌, length, IfOk};
ghost use Rattle.std.specs.Option.{option_map};
ghost use Rattle.callline.specs.CallLines.{call_in, told, answer_of, list_with, Within};
ghost use Rattle.callline.specs.WrittenOut.{ReadsBack};

use crate::forms::form;
use crate::sum::sum;
use terms::call::Call;
use terms::refusal::Refusal;

#[tactic(auto, using(std::proofs::lemmas::Bool::Decides::nat_tests), unfolding(crate::specs::CallLines::call_in))]
fn typed(line: &[u8], list: &mut [u32]) -> Option<Call<usize>>
    ensures answer { result ≡ option_map told (call_in (length list.old) line.now) }
    ensures list { list.new ≡ list_with (call_in (length list.old) line.now) list.old }
{
    match line {
        [b'p'] => Some(Call::Route),
        [b't', b' ', arcs @ ..] => sum(arcs, list),
        [letter, b' ', numbers @ ..] => form(*letter, numbers),
        _ => None,
    }
}

// The call that a line says, which comes without its end. Typed arcs are written to the front of `list`, and the call says how many
// they are; nothing else in the list changes.
#[tactic(auto, using(crate::proofs::Law::line_within, crate::proofs::Law::line_back))]
pub fn read_call(line: &[u8], list: &mut [u32]) -> Result<Call<usize>, Refusal>
    ensures answer { result ≡ answer_of (call_in (length list.old) line.now) }
    ensures list { list.new ≡ list_with (call_in (length list.old) line.now) list.old }
    ensures within { IfOk result (Within (length list.old)) }
    ensures back { ReadsBack line.now list.old result list.new }
{
    typed(line, list).ok_or(Refusal::NoCall)
}
