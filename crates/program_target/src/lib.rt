// Whether a file may be written where another may stand: a study file may be replaced, anything else stays as it is.
#![tactic(auto)]

ghost use Rattle.std.specs.Prelude.{⊤, ◌≡◌};
ghost use Rattle.program_outcome.specs.Outcome.{Tells};
ghost use Rattle.program_target.specs.Target.{barred_remark, bytes_text, target_text};

use answers::Answer;
use program_outcome::{AREA_BYTES, Remark, SAID_BYTES};

// Why no file is written at a place: a symbolic link stands there; or something that is no file, or that cannot be read and written.
#[derive(Clone, Copy, PartialEq, Eq, Debug)]
pub enum Barred {
    Link,
    Closed,
}

// What is said of it.
impl From<Barred> for Remark {
    ghost from_gives = { λ why remark. remark ≡ barred_remark why };

    fn from(why: Barred) -> Remark {
        match why {
            Barred::Link => Remark::IsLink,
            Barred::Closed => Remark::Unwritten,
        }
    }
}

// What was found where a file is to be written: a file, of which so many bytes were read; nothing; or why none is written there.
pub type Found = Result<Option<usize>, Barred>;

// Says why a file of these bytes stays, if it does.
fn judge_bytes(
    name: &[u8],
    file: &[u8],
    whole: bool,
    said: &mut [u8; SAID_BYTES],
) -> Result<(), usize>
    ensures { Tells (bytes_text name.now file.now whole) said.old said.new (λ _. ⊤) result }
{
    let answer = study::check(file);
    if let Answer::Refused(_, _) = answer {
        return Err(program_outcome::say(name, Remark::InTheWay, said));
    }
    if whole {
        return Ok(());
    }
    Err(program_outcome::say(name, Remark::Stays, said))
}

// Says why a file may not be written, if it may not. What was found was read into the area; whether all that was asked for was
// done is told, since a study is replaced only then.
pub fn judge(
    found: Found,
    name: &[u8],
    area: &[u8; AREA_BYTES],
    whole: bool,
    said: &mut [u8; SAID_BYTES],
) -> Result<(), usize>
    ensures { Tells (target_text found name.now area.now whole) said.old said.new (λ _. ⊤) result }
{
    match found {
        Ok(None) => Ok(()),
        Ok(Some(size)) => judge_bytes(name, program_outcome::front(area, size), whole, said),
        Err(why) => Err(program_outcome::say(name, Remark::from(why), said)),
    }
}
