ghost use Rattle.std.specs.Prelude.{◌≡◌, ◌%◌, ◌≤◌, length};

use crate::checks::same;
use sqwal::{Order, Sum};
use std::process::Abort;

/// A sum by its two words.
const fn sum(s0: u32, s1: u32) -> Sum {
    Sum { s0, s1 }
}

#[test]
fn sums_of_words(rt: HostRuntime) {
    let bytes = [0, 0, 0, 1, 0, 0, 0, 2, 0, 0, 0, 3, 0, 0, 0, 4];
    let little = sum(0x07000000, 0x0e000000);
    same(&rt, Sum::zero().add(&bytes, Order::Big), sum(7, 14));
    same(&rt, Sum::zero().add(&bytes, Order::Little), little);
    let wrapping = [255, 255, 255, 255, 0, 0, 0, 1];
    let wrapped = Sum::zero().add(&wrapping, Order::Big);
    same(&rt, wrapped, sum(0xffffffff, 0));
    same(&rt, Sum::zero().add(&[], Order::Big), sum(0, 0));
}

/// Tests that sums go on over the first of these bytes to this in either order, from 5 and 7.
fn goes_on<R: Abort>(rt: &R, bytes: &[u8], count: usize, big: Sum, little: Sum)
    requires within { count ≤ length bytes.now }
    requires pairs { count % 8 ≡ 0 }
{
    let front = &bytes[..count];
    same(rt, sum(5, 7).add(front, Order::Big), big);
    same(rt, sum(5, 7).add(front, Order::Little), little);
}

/// Pages, which are summed in quarters, and lengths that aren't. The sums were worked out by a loop over the words.
#[test]
fn sums_of_pages(rt: HostRuntime) {
    let mut bytes = [0; 65536];
    for (i, byte) in bytes.iter_mut().enumerate() {
        *byte = (i % 251 + i / 4096 % 5) as u8;
    }
    goes_on(
        &rt,
        &bytes,
        504,
        sum(0xe98eb159, 0x81c8c89f),
        sum(0x71979e9b, 0x98f897a7),
    );
    goes_on(
        &rt,
        &bytes,
        512,
        sum(0x6d5a7dfd, 0xf52a4ea5),
        sum(0x0f943944, 0xb194d7f1),
    );
    goes_on(
        &rt,
        &bytes,
        576,
        sum(0xace0d029, 0xa7943df7),
        sum(0x636618a7, 0xcfd0928b),
    );
    goes_on(
        &rt,
        &bytes,
        1024,
        sum(0xc5325a0f, 0x4e87ede7),
        sum(0x1095e82a, 0xcb7d892f),
    );
    goes_on(
        &rt,
        &bytes,
        4096,
        sum(0xc825536b, 0x286d1b8b),
        sum(0x5864acc8, 0x95664035),
    );
    goes_on(
        &rt,
        &bytes,
        65536,
        sum(0x04adc6ab, 0xdb0ba8c8),
        sum(0xeaa26bdd, 0xc52858d7),
    );
}
