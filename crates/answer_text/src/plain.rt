// Whether a text needs no escape. Many bytes are checked in one step; the last step may check some of the
// bytes of the one before again.
ghost use Rattle.std.specs.Prelude.{◌≡◌, ◌+◌, ◌≤◌, ◌<◌, length};
ghost use Rattle.std.specs.Bool.{OnTrue};
ghost use Rattle.json.specs.Print.{escape};
ghost use Rattle.json.specs.Written.{PlainBetween};

use std::simd::prelude::*;

/// Whether each byte stands for itself.
#[inline(always)]
pub(crate) fn is_plain(text: &[u8]) -> bool
    ensures { OnTrue result (escape text.now ≡ text.now) }
{
    if text.len() < 32 {
        is_short_plain(text)
    } else {
        is_long_plain(text)
    }
}

#[inline(always)]
fn is_long_plain(text: &[u8]) -> bool
    requires { 32 ≤ length text.now }
    ensures { OnTrue result (PlainBetween text.now 0 (length text.now)) }
{
    let mut at = 0;
    while text.len() - at > 32 {
        if !is_plain_32(text, at) {
            return false;
        }
        at += 32;
    }
    is_plain_32(text, text.len() - 32)
}

#[inline(always)]
fn is_short_plain(text: &[u8]) -> bool
    requires { length text.now < 32 }
    ensures { OnTrue result (PlainBetween text.now 0 (length text.now)) }
{
    if text.len() < 8 {
        are_plain(text)
    } else if text.len() < 16 {
        is_plain_8(text, 0) && is_plain_8(text, text.len() - 8)
    } else {
        is_plain_16(text, 0) && is_plain_16(text, text.len() - 16)
    }
}

fn are_plain(bytes: &[u8]) -> bool
    ensures { OnTrue result (PlainBetween bytes.now 0 (length bytes.now)) }
{
    for &byte in bytes {
        if byte == b'"' || byte == b'\\' || byte < 0x20 {
            return false;
        }
    }
    true
}

#[inline(always)]
fn is_plain_8(text: &[u8], at: usize) -> bool
    requires { at + 8 ≤ length text.now }
    ensures { OnTrue result (PlainBetween text.now at (at + 8)) }
{
    let bytes = u8x8::from_slice(&text[at..]);
    (bytes.simd_eq(u8x8::splat(b'"'))
        | bytes.simd_eq(u8x8::splat(b'\\'))
        | bytes.simd_lt(u8x8::splat(0x20))).to_bitmask()
        == 0
}

#[inline(always)]
fn is_plain_16(text: &[u8], at: usize) -> bool
    requires { at + 16 ≤ length text.now }
    ensures { OnTrue result (PlainBetween text.now at (at + 16)) }
{
    let bytes = u8x16::from_slice(&text[at..]);
    (bytes.simd_eq(u8x16::splat(b'"'))
        | bytes.simd_eq(u8x16::splat(b'\\'))
        | bytes.simd_lt(u8x16::splat(0x20))).to_bitmask()
        == 0
}

#[inline(always)]
fn is_plain_32(text: &[u8], at: usize) -> bool
    requires { at + 32 ≤ length text.now }
    ensures { OnTrue result (PlainBetween text.now at (at + 32)) }
{
    let bytes = u8x32::from_slice(&text[at..]);
    (bytes.simd_eq(u8x32::splat(b'"'))
        | bytes.simd_eq(u8x32::splat(b'\\'))
        | bytes.simd_lt(u8x32::splat(0x20))).to_bitmask()
        == 0
}
