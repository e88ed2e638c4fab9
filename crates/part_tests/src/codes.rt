// The code of two parity processes and more, and lost columns.
ghost use Rattle.std.specs.Prelude.{◌≡◌, ◌<◌, ◌≤◌, All, IfOk, length};
ghost use Rattle.group_types.specs.Pieces.{numbers_of};
ghost use Rattle.erasure_code.specs.Columns.{AreDifferent, IsEachBelow};

use crate::fixtures::{same, shape};
use cauchy_code::{add_delta, decode};
use group_types::{PieceList, Shape};
use std::alloc::{AllocError, Global};

#[test]
fn three_bytes_in_two_parity_processes(rt: HostRuntime) {
    let (mut p0, mut p1) = ([0u8], [0u8]);
    for d in 0..3u32 {
        let byte = [d as u8 + 1];
        add_delta(2, 0, d, &byte, &mut p0);
        add_delta(2, 1, d, &byte, &mut p1);
    }
    same(&rt, (p0, p1), ([0xB2], [0x01]));
}

// The column of partition `d`, whose first byte is d + 1.
fn content(d: u32) -> [u8; 16]
    requires { d < 16 }
    ensures { length result ≡ 16 }
{
    let mut bytes = [0u8; 16];
    'bytes: for at in 0..16usize {
        bytes[at] = (d as u8 + 1) ^ (at * 37 % 256) as u8;
    }
    bytes
}

fn data(alloc: Global, numbers: &[u32]) -> Result<PieceList, AllocError>
    requires { All (λ d. d < 16) numbers.now }
    ensures numbers { IfOk result (λ list. numbers_of list ≡ numbers.now) }
    ensures long { IfOk result (λ list. All (λ p. length p.bytes ≡ 16) list) }
{
    let mut list = PieceList::new(alloc, numbers, 16)?;
    'numbers: for d in numbers {
        list.piece_mut(*d).copy_from_slice(&content(*d));
    }
    Ok(list)
}

fn parity(alloc: Global, shape: Shape, numbers: &[u32]) -> Result<PieceList, AllocError>
    requires { All (λ i. i < shape.m) numbers.now }
    ensures numbers { IfOk result (λ list. numbers_of list ≡ numbers.now) }
    ensures long { IfOk result (λ list. All (λ p. length p.bytes ≡ 16) list) }
{
    let mut list = PieceList::new(alloc, numbers, 16)?;
    'rows: for i in numbers {
        'columns: for d in 0..shape.k() {
            add_delta(shape.m(), *i, d, &content(d), list.piece_mut(*i));
        }
    }
    Ok(list)
}

// Whether the first `f` of these partitions are decoded from the others and the rows.
fn decodes(
    alloc: Global,
    shape: Shape,
    order: &[u32],
    f: usize,
    numbers: &[u32],
) -> Result<bool, AllocError>
    requires order { IsEachBelow shape.k order.now }
    requires count { f ≤ length order.now }
    requires as_many { length numbers.now ≡ f }
    requires below { All (λ i. i < shape.m) numbers.now }
    requires differ { AreDifferent numbers.now }
{
    let lost = &order[..f];
    let known = data(alloc, &order[f..])?;
    let rows = parity(alloc, shape, numbers)?;
    let mut out = PieceList::new(alloc, lost, 16)?;
    decode(shape, lost, &rows, &known, &mut out);
    'lost: for d in lost {
        if out.piece(*d) != content(*d).as_slice() {
            return Ok(false);
        }
    }
    Ok(true)
}

// Orders of four numbers whose beginnings are all choices of some of them.
fn order(choice: u8) -> [u32; 4]
    ensures { IsEachBelow 4 result }
{
    match choice {
        0 => [0, 1, 2, 3],
        1 => [2, 0, 3, 1],
        2 => [3, 0, 1, 2],
        3 => [1, 2, 3, 0],
        4 => [1, 3, 0, 2],
        _ => [2, 3, 0, 1],
    }
}

#[test]
fn two_of_three_columns_from_both_rows(rt: HostRuntime) {
    let shape = shape(&rt, 3, 2, 1);
    same(
        &rt,
        decodes(rt.alloc(), shape, &[0, 1, 2], 2, &[0, 1]),
        Ok(true),
    );
}

#[test]
fn all_choices_of_columns_and_rows(rt: HostRuntime) {
    let shape = shape(&rt, 4, 4, 1);
    for lost in 0..6 {
        for rows in 0..6 {
            for f in 1..=4 {
                same(
                    &rt,
                    decodes(rt.alloc(), shape, &order(lost), f, &order(rows)[..f]),
                    Ok(true),
                );
            }
        }
    }
}
