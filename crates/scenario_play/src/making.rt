ghost use Rattle.std.specs.Prelude.{◌≡◌, ◌<◌, ◌^◌, ◌++◌, ◌∷◌, [], length, IfOk, OnOk};
ghost use Rattle.group_run.specs.Headline.{MayCome};
ghost use Rattle.group_run.specs.World.{step};
ghost use Rattle.scenario_text.specs.Texts.{answer_text};

use group_calls::{Answer, Event, Out};
use group_core::World;
use scenario_text::write_answer::write_answer;
use std::alloc::{AllocError, Global};

/// Makes an event.
pub(crate) fn make_event(world: &mut World, event: Event) -> Result<Out, AllocError>
    requires events { world.old.events < 2 ^ 62 }
    requires may { MayCome world.old event }
    ensures world { OnOk result (world.new ≡ (step world.old event).world) }
    ensures answer { IfOk result (λ out. out.answer ≡ (step world.old event).turn.answer) }
    ensures logged { IfOk result (λ out. out.logged ≡ length (step world.old event).turn.logged) }
{
    let out = world.step(&event);
    drop(event);
    out
}

/// The answer of an event on a line.
pub fn answer_line(alloc: Global, out: Out) -> Result<Vec<u8>, AllocError>
    ensures { IfOk result (λ line. line.items ≡ answer_text out.answer ++ 10 ∷ []) }
{
    let line = write_line(alloc, &out.answer);
    drop(out);
    line
}

fn write_line(alloc: Global, answer: &Answer) -> Result<Vec<u8>, AllocError>
    ensures { IfOk result (λ line. line.items ≡ answer_text answer.now ++ 10 ∷ []) }
{
    let mut line = write_answer(alloc, answer)?;
    line.push(b'\n')?;
    Ok(line)
}
