ghost use Rattle.std.specs.Prelude.{IfOk, option_copied};
ghost use Rattle.group_config.specs.MemberReading.{HasMembers, MemberComesOf};
ghost use Rattle.group_config.specs.Watching.{HasLease, WatchComesOf};

use group_config::{
    MemberFault, MemberKey, MemberSettings, WatchSettings, find_member, read_member_settings,
    read_watch_settings,
};
use group_server::Notice;
use std::alloc::Global;

/// The settings of a member that a text gives. Where it gives none a person is told what is wrong with it.
pub(crate) fn settings_or_tell<N: Notice>(
    alloc: Global,
    text: &[u8],
    name: Option<&str>,
    notice: &N,
) -> Result<MemberSettings, MemberFault>
    ensures comes { MemberComesOf (option_copied name.entry) text.now result }
    ensures members { IfOk result HasMembers }
{
    let read = read_member_settings(alloc, text, name);
    if let Err(MemberFault::BadKey { key }) = &read {
        tell_refusal(alloc, text, name, *key, notice);
    }
    read
}

/// How a member is watched, by a text. Where it doesn't say so a person is told what is wrong with it.
pub(crate) fn watch_or_tell<N: Notice>(
    alloc: Global,
    text: &[u8],
    notice: &N,
) -> Result<WatchSettings, MemberFault>
    ensures comes { WatchComesOf text.now result }
    ensures lease { IfOk result (λ watch. HasLease watch.seconds) }
{
    let read = read_watch_settings(alloc, text);
    if let Err(MemberFault::BadKey { key }) = &read {
        tell_refusal(alloc, text, None, *key, notice);
    }
    read
}

/// Tells what is wrong with a text of settings that is refused at a key.
fn tell_refusal<N: Notice>(
    alloc: Global,
    text: &[u8],
    name: Option<&str>,
    key: MemberKey,
    notice: &N,
) {
    if let Ok(finding) = find_member(alloc, text, name, key) {
        notice.refuse(&finding);
    }
}
