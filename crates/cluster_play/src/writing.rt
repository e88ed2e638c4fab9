ghost use Rattle.std.specs.Prelude.{◌≡◌, ℕ, List, [], ◌∷◌, ◌++◌, codes, IfOk};
ghost use Rattle.std.specs.Fmt.{decimal};
ghost use Rattle.cluster_run.specs.Texts.{cluster_answer_text, group_mark};

use group_layout::{ClusterAnswer, ClusterOut};
use scenario_text::write_answer::write_answer;
use std::alloc::{AllocError, Global};

/// The text of a cluster's answer, without a line end.
pub(crate) fn write_cluster_answer(
    alloc: Global,
    answer: &ClusterAnswer,
) -> Result<Vec<u8>, AllocError>
    ensures { IfOk result (λ text. text.items ≡ cluster_answer_text answer.now) }
{
    match answer {
        ClusterAnswer::Inner(answer) => write_answer(alloc, answer),
        ClusterAnswer::WrongGroup(group) => write_wrong_group(alloc, *group),
        ClusterAnswer::Done => Vec::from_slice(alloc, b"done"),
        ClusterAnswer::AlreadyDead => Vec::from_slice(alloc, b"already_dead"),
    }
}

/// Names the group of a key that was asked in another.
fn write_wrong_group(alloc: Global, group: u32) -> Result<Vec<u8>, AllocError>
    ensures { IfOk result (λ text. text.items ≡ codes "wrong_group " ++ decimal group) }
{
    Ok(format!(in alloc; "wrong_group {group}")?.into_bytes())
}

/// The answer of a step on a line.
pub(crate) fn answer_line(alloc: Global, out: ClusterOut) -> Result<Vec<u8>, AllocError>
    ensures { IfOk result (λ text. text.items ≡ cluster_answer_text out.answer ++ 10 ∷ []) }
{
    let text = write_cluster_answer(alloc, &out.answer);
    end_line(text)
}

fn end_line(text: Result<Vec<u8>, AllocError>) -> Result<Vec<u8>, AllocError>
    ensures { IfOk result (λ line. (front : List ℕ) → IfOk text (λ t. t.items ≡ front)
        → line.items ≡ front ++ 10 ∷ []) }
{
    let mut text = text?;
    text.push(b'\n')?;
    Ok(text)
}

/// How many entries a step logged.
pub(crate) fn logged_by(out: ClusterOut) -> u64
    ensures { result ≡ out.logged }
{
    out.logged
}

/// What stands in front of an entry of a group's log.
pub(crate) fn write_mark(alloc: Global, group: u32) -> Result<Vec<u8>, AllocError>
    ensures { IfOk result (λ text. text.items ≡ group_mark group) }
{
    Ok(format!(in alloc; "= g{group} ")?.into_bytes())
}
