// Settings: their limits in bytes, and what a person is told. What each key may be is told by rows of text elsewhere.
use crate::memory::same;
use edge_io::MemorySource;
use group_config::{ConfigFault, Settings, TextFault, read_settings, read_text};
use group_types::ConfigKey;
use std::alloc::{AllocError, Global};
use std::process::Abort;

/// All that is required but the address.
const SHAPE: &str = "k = 1\nm = 0\nblocks = 1\nblock = 16\n";

/// Settings whose address has this many bytes.
fn with_address(alloc: Global, length: usize) -> Result<Vec<u8>, AllocError> {
    let mut text = Vec::from_slice(alloc, SHAPE.as_bytes())?;
    text.extend_from_slice(b"address = \"")?;
    for _ in 0..length {
        text.push(b'a')?;
    }
    text.extend_from_slice(b"\"\n")?;
    Ok(text)
}

/// The same, with a comment behind it that makes it `length` bytes long.
fn of_length(alloc: Global, length: usize) -> Result<Vec<u8>, AllocError> {
    let mut text = with_address(alloc, 1)?;
    text.resize(length, b'#')?;
    Ok(text)
}

/// The length of the address that settings give, or the key that they are refused for.
fn address_of(alloc: Global, text: &[u8]) -> Result<usize, Option<ConfigKey>> {
    match read_settings(alloc, text) {
        Ok(settings) => Ok(length_of(&settings)),
        Err(ConfigFault::BadConfig { key }) => Err(Some(key)),
        Err(ConfigFault::Want) => Err(None),
    }
}

fn length_of(settings: &Settings) -> usize {
    settings.address.as_str().len()
}

#[test]
fn measures_an_address(rt: HostRuntime) {
    for (length, read) in [
        (1, Ok(1)),
        (255, Ok(255)),
        (256, Err(Some(ConfigKey::Address))),
    ] {
        let text = with_address(rt.alloc(), length).expect(&rt, "a text");
        same(&rt, address_of(rt.alloc(), &text), read);
    }
}

#[test]
fn refuses_what_is_no_settings(rt: HostRuntime) {
    same(&rt, address_of(rt.alloc(), b""), Err(Some(ConfigKey::K)));
    same(
        &rt,
        address_of(rt.alloc(), b"k = \"\xff\""),
        Err(Some(ConfigKey::Syntax)),
    );
}

/// How many bytes of text a source gave, or why it gave none, and the length of the address in them.
fn read_from(
    rt: &impl Abort,
    alloc: Global,
    mut source: MemorySource,
) -> Result<(usize, usize), TextFault> {
    let text = read_text(alloc, &mut source)?;
    let address = address_of(alloc, &text).expect(rt, "settings");
    Ok((text.len(), address))
}

#[test]
fn reads_up_to_its_limit(rt: HostRuntime) {
    let whole = usize::MAX;
    for (length, piece, read) in [
        (65_536, 1_000, Ok((65_536, 1))),
        (65_537, whole, Err(TextFault::TooLong)),
    ] {
        let text = of_length(rt.alloc(), length).expect(&rt, "a text");
        let source = MemorySource::new(rt.alloc(), &text, &[]).expect(&rt, "a source");
        same(
            &rt,
            read_from(&rt, rt.alloc(), source.with_piece(piece)),
            read,
        );
    }
}

#[test]
fn tells_a_read_that_failed(rt: HostRuntime) {
    let source = MemorySource::new(rt.alloc(), b"k = 4", &[2]).expect(&rt, "a source");
    let read = read_from(&rt, rt.alloc(), source.with_piece(1));
    same(&rt, read, Err(TextFault::ReadFault));
}

#[test]
fn tells_a_person_what_is_allowed(rt: HostRuntime) {
    let fault = ConfigFault::BadConfig {
        key: ConfigKey::Workers,
    };
    let sentence = format!(in rt.alloc(); "{fault}").expect(&rt, "a sentence");
    same(
        &rt,
        sentence.as_str(),
        "workers is 1 to 64, and 4 where it is left out",
    );
}
