ghost use Rattle.std.specs.Prelude.{ℕ, ◌≡◌, ◌↔◌, ◌++◌, ◌<◌, ◌^◌, List, codes, IsTrue};
ghost use Rattle.std.specs.Fmt.{decimal};
ghost use Rattle.group_types.specs.declared.process.Partition.{Partition};
ghost use Rattle.group_calls.specs.declared.event.Answer.{Answer};
ghost use Rattle.group_calls.specs.declared.event.Cause.TheVariants.{Pending};
ghost use Rattle.scenario_text.specs.Texts.{answer_text, cause_text};
ghost use Rattle.transcript_text.specs.Forms.{can_have, FitsCause, form_of};
ghost use Rattle.transcript_text.specs.Parts.{HasForm, IsBareForm, IsForm};
ghost use Rattle.transcript_text.specs.Texts.{IsReplyText, IsSaid, Tells};

use crate::form::Form;
use crate::kind::Kind;
use crate::number::{number, number_below, number_below_up_to};
use crate::reply::is_reply;
use crate::word::{after, is_text};

/// What a line says that is an answer: a reply, by its text, a ticket, or anything else.
#[derive(Clone, Copy, Debug, PartialEq, Eq)]
pub enum Said<'a> {
    Reply(&'a [u8]),
    Ticket,
    Other,
}

/// What a line says, if it is an answer that an event of this kind can have.
pub fn read_said(kind: Kind, line: &[u8]) -> Option<Said>
    ensures { IsSaid kind line.now result }
{
    let form = form(line)?;
    if !may_have(kind, form) {
        return None;
    }
    Some(said_as(form, line))
}

/// What a line says that is an answer of this form.
fn said_as(form: Form, line: &[u8]) -> Said
    requires { HasForm line.now form }
    ensures { (answer : Answer) → answer_text answer ≡ line.now → form_of answer ≡ form → Tells result answer }
{
    match form {
        Form::Reply => Said::Reply(&line[6..]),
        Form::Ticket => Said::Ticket,
        _ => Said::Other,
    }
}

fn may_have(kind: Kind, form: Form) -> bool
    ensures { result ≡ can_have kind form }
{
    match kind {
        Kind::Read => may_be_read(form),
        Kind::Alter => may_alter(form),
        Kind::Store => may_store(form),
        Kind::Collect => matches!(
            form,
            Form::Reply | Form::NotYet | Form::Stranger | Form::Lost | Form::Down
        ),
        Kind::Deliver => matches!(form, Form::Done | Form::Idle | Form::Down),
        Kind::Fail => matches!(form, Form::Done | Form::AlreadyDead),
        Kind::Flush => matches!(form, Form::Done | Form::Lost | Form::Down),
        Kind::Trace => may_be_traced(form),
    }
}

fn may_be_read(form: Form) -> bool
    ensures { result ≡ can_have Kind.Read form }
{
    matches!(
        form,
        Form::Reply | Form::Retry | Form::Moved | Form::Lost | Form::Down
    )
}

fn may_alter(form: Form) -> bool
    ensures { result ≡ can_have Kind.Alter form }
{
    matches!(
        form,
        Form::Reply | Form::Ticket | Form::Retry | Form::Moved | Form::Lost | Form::Down
    )
}

fn may_store(form: Form) -> bool
    ensures { result ≡ can_have Kind.Store form }
{
    matches!(
        form,
        Form::Reply
            | Form::Ticket
            | Form::Retry
            | Form::NoSpace
            | Form::Moved
            | Form::Lost
            | Form::Down
    )
}

fn may_be_traced(form: Form) -> bool
    ensures { result ≡ can_have Kind.Trace form }
{
    matches!(
        form,
        Form::Reply
            | Form::NotYet
            | Form::Stale
            | Form::Gone
            | Form::Moved
            | Form::Lost
            | Form::Down
    )
}

/// The form of a line that is an answer.
fn form(line: &[u8]) -> Option<Form>
    ensures { IsForm line.now result }
{
    if is_replied(line) {
        return Some(Form::Reply);
    }
    if is_numbered(b"ticket ", line) {
        return Some(Form::Ticket);
    }
    if is_numbered(b"stale ", line) {
        return Some(Form::Stale);
    }
    if is_pending(line) {
        return Some(Form::Retry);
    }
    if is_blocked(line) {
        return Some(Form::Retry);
    }
    bare_form(line)
}

fn is_replied(line: &[u8]) -> bool
    ensures { IsTrue result ↔ ((text : List ℕ) × (codes "reply " ++ text ≡ line.now) × IsReplyText text) }
{
    match after(b"reply ", line) {
        Some(text) => is_reply(text),
        None => false,
    }
}

fn is_numbered(front: &[u8], line: &[u8]) -> bool
    ensures { IsTrue result ↔ ((n : ℕ) × (n < 2 ^ 64) × (front.now ++ decimal n ≡ line.now)) }
{
    match after(front, line) {
        Some(word) => number(word).is_some(),
        None => false,
    }
}

fn is_pending(line: &[u8]) -> bool
    ensures { IsTrue result ↔ ((partition : Partition) × (number : ℕ) × FitsCause (Pending partition number)
        × (cause_text (Pending partition number) ≡ line.now)) }
{
    match after(b"retry pending ", line) {
        Some(numbers) => match number_below_up_to(b' ', numbers, 1 << 32) {
            Some((_, word)) => number(word).is_some(),
            None => false,
        },
        None => false,
    }
}

fn is_blocked(line: &[u8]) -> bool
    ensures { IsTrue result ↔ ((block : ℕ) × (block < 2 ^ 32) × (codes "retry block " ++ decimal block ≡ line.now)) }
{
    match after(b"retry block ", line) {
        Some(word) => number_below(word, 1 << 32).is_some(),
        None => false,
    }
}

/// The form of an answer that has neither a reply nor a number.
fn bare_form(line: &[u8]) -> Option<Form>
    ensures { IsBareForm line.now result }
{
    if is_text(line, b"not_yet") {
        return Some(Form::NotYet);
    }
    if is_text(line, b"no_space") {
        return Some(Form::NoSpace);
    }
    if is_text(line, b"moved") {
        return Some(Form::Moved);
    }
    if is_text(line, b"lost") {
        return Some(Form::Lost);
    }
    if is_text(line, b"down") {
        return Some(Form::Down);
    }
    if is_text(line, b"idle") {
        return Some(Form::Idle);
    }
    if is_text(line, b"stranger") {
        return Some(Form::Stranger);
    }
    if is_text(line, b"done") {
        return Some(Form::Done);
    }
    if is_text(line, b"already_dead") {
        return Some(Form::AlreadyDead);
    }
    if is_text(line, b"gone") {
        return Some(Form::Gone);
    }
    None
}
