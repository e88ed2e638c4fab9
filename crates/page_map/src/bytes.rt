ghost use Rattle.std.specs.Prelude.{◌≡◌, ◌+◌, ◌*◌, ◌≤◌, EachIndex, IfOk, IfSome, length, slice_index_or, option_copied, unwrap_or};
ghost use Rattle.field_byte.specs.Vectors.{add_bytes, scale};
ghost use Rattle.erasure_code.specs.Spaces.{bytes_at};
ghost use Rattle.page_map.specs.Pages.{AddsProduct, HasPages, byte_in, byte_of};
ghost use Rattle.page_map.specs.Spaces.{page_bytes};

use crate::Pages;
use field_byte::Split;
use group_types::ByteList;
use lane_kernel::{mul_add_by, xor_into};
use std::alloc::AllocError;

impl Pages {
    /// Reads the bytes from `at` on, which are zeros where no page is.
    pub fn read_into(&self, at: u32, into: &mut [u8])
        requires { at + length into.old ≤ self.now.blocks * self.now.block }
        ensures { EachIndex into.new (λ k. slice_index_or into.new k 0 ≡ byte_in self.now (at + k)) }
    {
        let block = self.block() as usize;
        let start = at as usize;
        let mut done = 0;
        'pieces: while done < into.len() {
            let from = (start + done) % block;
            let len = (block - from).min(into.len() - done);
            let page = self.page(((start + done) / block) as u32);
            read_piece(page, from, &mut into[done..done + len]);
            done += len;
        }
    }

    /// The `len` bytes from `at` on.
    pub fn range(&self, at: u32, len: u32) -> Result<ByteList, AllocError>
        requires { at + len ≤ self.now.blocks * self.now.block }
        ensures bytes { IfOk result (λ bytes. bytes ≡ bytes_at at len (page_bytes self.now)) }
        ensures length { IfOk result (λ bytes. length bytes ≡ len) }
    {
        let mut bytes = vec![in self.alloc(); 0u8; len as usize]?;
        self.read_into(at, &mut bytes);
        Ok(ByteList::from(bytes))
    }

    /// Adds each of `bytes`, times the coefficient where there is one, to the bytes from `at` on,
    /// whose pages are all there.
    pub fn add(&mut self, at: u32, coef: Option<&Split>, bytes: &[u8])
        requires within { at + length bytes.now ≤ self.old.blocks * self.old.block }
        requires there { HasPages self.old at (length bytes.now) }
        ensures { AddsProduct self.old self.new at (unwrap_or (option_copied coef.entry) 1) bytes.now (length bytes.now) }
    {
        let block = self.block() as usize;
        let start = at as usize;
        let mut done = 0;
        'pieces: while done < bytes.len() {
            let from = (start + done) % block;
            let len = (block - from).min(bytes.len() - done);
            let page = self.page_mut(((start + done) / block) as u32);
            add_piece(coef, &bytes[done..done + len], &mut page[from..from + len]);
            done += len;
        }
    }
}

fn read_piece(page: Option<&[u8]>, from: usize, into: &mut [u8])
    requires { IfSome page (λ bytes. from + length into.old ≤ length bytes.now) }
    ensures { EachIndex into.new (λ k. slice_index_or into.new k 0 ≡ byte_of (option_copied page.entry) (from + k)) }
{
    match page {
        Some(bytes) => into.copy_from_slice(&bytes[from..from + into.len()]),
        None => into.fill(0),
    }
}

fn add_piece(coef: Option<&Split>, src: &[u8], dst: &mut [u8])
    requires { length src.now ≡ length dst.old }
    ensures { dst.new ≡ add_bytes dst.old (scale (unwrap_or (option_copied coef.entry) 1) src.now) }
{
    match coef {
        Some(coef) => mul_add_by(coef, src, dst),
        None => xor_into(src, dst),
    }
}
