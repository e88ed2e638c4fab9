ghost use Rattle.std.specs.Prelude.{◌≡◌, IfOk};
ghost use Rattle.std.specs.String.{string_bytes};
ghost use Rattle.etcd_words.specs.Asking.{absent_text, base64_text, body_text, condemn_text, leased_put_text, put_text, range_text, register_text, unchanged_text};

use crate::ask::Ask;
use base64::engine::general_purpose::STANDARD;
use std::alloc::{AllocError, Global};

/// The JSON that says what is asked for.
pub(crate) fn body_of(alloc: Global, ask: Ask<'_>) -> Result<String, AllocError>
    ensures { IfOk result (λ text. string_bytes text ≡ body_text ask.entry) }
{
    match ask {
        Ask::Grant { seconds } => format!(in alloc; "{{\"TTL\":{seconds}}}"),
        Ask::Renew { lease } | Ask::Revoke { lease } => format!(in alloc; "{{\"ID\":{lease}}}"),
        Ask::Register {
            lease,
            alive,
            seen,
            value,
        } => registration(alloc, lease, alive, seen, value),
        Ask::Range { from, to } => range(alloc, from, to),
        Ask::Condemn {
            dead,
            revision,
            value,
            alive,
        } => condemnation(alloc, dead, revision, value, alive),
        Ask::Watch { from, to } => {
            let range = range(alloc, from, to)?;
            format!(in alloc; "{{\"create_request\":{range}}}")
        }
    }
}

fn registration(
    alloc: Global,
    lease: u64,
    alive: &str,
    seen: &str,
    value: &str,
) -> Result<String, AllocError>
    ensures { IfOk result (λ text. string_bytes text ≡ register_text lease alive.now seen.now value.now) }
{
    let none = absent(alloc, alive)?;
    let alive = leased_put(alloc, alive, value, lease)?;
    let seen = put(alloc, seen, value)?;
    format!(in alloc; "{{\"compare\":[{none}],\"success\":[{alive},{seen}]}}")
}

fn condemnation(
    alloc: Global,
    dead: &str,
    revision: u64,
    value: &str,
    alive: &str,
) -> Result<String, AllocError>
    ensures { IfOk result (λ text. string_bytes text ≡ condemn_text dead.now revision value.now alive.now) }
{
    let same = unchanged(alloc, dead, revision)?;
    let none = absent(alloc, alive)?;
    let dead = put(alloc, dead, value)?;
    format!(in alloc; "{{\"compare\":[{same},{none}],\"success\":[{dead}]}}")
}

fn range(alloc: Global, from: &str, to: &str) -> Result<String, AllocError>
    ensures { IfOk result (λ text. string_bytes text ≡ range_text from.now to.now) }
{
    let from = coded(alloc, from)?;
    let to = coded(alloc, to)?;
    format!(in alloc; "{{\"key\":\"{from}\",\"range_end\":\"{to}\"}}")
}

fn put(alloc: Global, key: &str, value: &str) -> Result<String, AllocError>
    ensures { IfOk result (λ text. string_bytes text ≡ put_text key.now value.now) }
{
    let key = coded(alloc, key)?;
    let value = coded(alloc, value)?;
    format!(in alloc; "{{\"request_put\":{{\"key\":\"{key}\",\"value\":\"{value}\"}}}}")
}

fn leased_put(alloc: Global, key: &str, value: &str, lease: u64) -> Result<String, AllocError>
    ensures { IfOk result (λ text. string_bytes text ≡ leased_put_text key.now value.now lease) }
{
    let key = coded(alloc, key)?;
    let value = coded(alloc, value)?;
    format!(in alloc;
        "{{\"request_put\":{{\"key\":\"{key}\",\"value\":\"{value}\",\"lease\":{lease}}}}}"
    )
}

fn unchanged(alloc: Global, key: &str, revision: u64) -> Result<String, AllocError>
    ensures { IfOk result (λ text. string_bytes text ≡ unchanged_text key.now revision) }
{
    let key = coded(alloc, key)?;
    format!(in alloc;
        "{{\"key\":\"{key}\",\"target\":\"MOD\",\"result\":\"EQUAL\",\"mod_revision\":{revision}}}"
    )
}

fn absent(alloc: Global, key: &str) -> Result<String, AllocError>
    ensures { IfOk result (λ text. string_bytes text ≡ absent_text key.now) }
{
    let key = coded(alloc, key)?;
    format!(in alloc;
        "{{\"key\":\"{key}\",\"target\":\"VERSION\",\"result\":\"EQUAL\",\"version\":0}}"
    )
}

/// A text in base 64, as the gateway takes keys and values.
fn coded(alloc: Global, text: &str) -> Result<String, AllocError>
    ensures { IfOk result (λ code. string_bytes code ≡ base64_text text.now) }
{
    STANDARD.encode(alloc, text.as_bytes())
}
