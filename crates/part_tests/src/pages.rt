// Pages of a space, and bytes across their ends.
use crate::fixtures::same;
use field_byte::Split;
use group_types::ByteList;
use page_map::Pages;
use std::alloc::Global;
use std::process::Abort;

#[test]
fn makes_the_pages_of_a_range_alone(rt: HostRuntime) {
    let mut pages = Pages::new(rt.alloc(), 5, 16).expect(&rt, "pages");
    pages.reserve(0, 0).expect(&rt, "no room");
    same(&rt, pages.made(), 0);
    pages.reserve(20, 29).expect(&rt, "room");
    same(
        &rt,
        (pages.made(), which(&pages)),
        (3, [false, true, true, true, false]),
    );
    same(&rt, pages.page(2), Some([0u8; 16].as_slice()));
    pages.reserve(0, 80).expect(&rt, "room");
    same(&rt, pages.made(), 5);
}

// Which of the first five pages are there.
fn which(pages: &Pages) -> [bool; 5] {
    [
        pages.has(0),
        pages.has(1),
        pages.has(2),
        pages.has(3),
        pages.has(4),
    ]
}

#[test]
fn keeps_each_page_under_its_number(rt: HostRuntime) {
    let mut pages = Pages::new(rt.alloc(), 4, 16).expect(&rt, "pages");
    place(&rt, rt.alloc(), &mut pages, 3);
    place(&rt, rt.alloc(), &mut pages, 1);
    write(&rt, &mut pages, 3, 7);
    same(&rt, pages.page(1), Some([1u8; 16].as_slice()));
    let mut wanted = [3u8; 16];
    wanted[0] = 7;
    same(&rt, pages.page(3), Some(wanted.as_slice()));
    same(&rt, which(&pages), [false, true, false, true, false]);
    same(
        &rt,
        (pages.made(), pages.blocks(), pages.block()),
        (2, 4, 16),
    );
}

// Places a page that is full of its number.
fn place(rt: &impl Abort, alloc: Global, pages: &mut Pages, byte: u8) {
    let number = u32::from(byte);
    let bytes = ByteList::of(alloc, &[byte; 16]).expect(rt, "a page");
    pages.make_room(1).expect(rt, "room");
    assert!(rt; number < pages.blocks() && pages.block() == 16 && !pages.has(number));
    pages.place(number, bytes);
}

// Writes the first byte of a page.
fn write(rt: &impl Abort, pages: &mut Pages, number: u32, byte: u8) {
    assert!(rt; pages.has(number) && pages.block() == 16);
    pages.page_mut(number)[0] = byte;
}

#[test]
fn sums_cross_the_ends_of_pages(rt: HostRuntime) {
    let mut pages = Pages::new(rt.alloc(), 4, 16).expect(&rt, "pages");
    pages.reserve(14, 20).expect(&rt, "room");
    pages.add(14, Some(&Split::of(3)), &[1; 20]);
    let mut read = [9u8; 64];
    pages.read_into(0, &mut read);
    let mut wanted = [0u8; 64];
    for at in 14..34usize {
        wanted[at] = 3;
    }
    same(&rt, read, wanted);
}

#[test]
fn a_sum_has_no_coefficient(rt: HostRuntime) {
    let mut pages = Pages::new(rt.alloc(), 4, 16).expect(&rt, "pages");
    pages.reserve(15, 2).expect(&rt, "room");
    pages.add(15, None, &[2, 3]);
    let mut read = [9u8; 4];
    pages.read_into(14, &mut read);
    same(&rt, read, [0, 2, 3, 0]);
}
