//! How a path is opened, as a caller says it.
ghost use Rattle.std.specs.Prelude.{◌≡◌, ◌≢◌, ◌+◌, ◌<◌, ◌↔◌, ℕ, IsTrue, length, get_or};
ghost use Rattle.sqrescue_c.specs.Options.{AreKnown, AreAsked, option_at, IsZeros};

use byteorder::{ByteOrder, LittleEndian};

/// The flags that this version knows are the bits below this one, except the next.
const FLAGS_END: u32 = 128;

/// A flag of deep checks alone.
const COMPLETE: u32 = 32;

/// What is answered where they don't: 0 where they do.
const UNKNOWN_OPTIONS: u32 = 24;

/// Where the options that this version knows end, in bytes.
const END: usize = 16;

/// How long locks are waited for where it isn't said, in milliseconds.
const USUAL_WAIT: u32 = 5000;

/// What is asked for, by this version.
#[repr(C)]
#[derive(Clone, Copy)]
pub struct Asked {
    /// How long locks are waited for, in milliseconds.
    pub wait: u32,
    /// The commit frame at which the database is opened.
    pub at: u32,
}

/// The option at a place, or what stands for it where the options end before.
fn option_at(options: &[u8], at: usize, usual: u32) -> u32
    requires { at < 4096 }
    ensures { result ≡ option_at options.now at usual }
{
    if options.len() < at + 4 {
        return usual;
    }
    LittleEndian::read_u32(&options[at..at + 4])
}

/// Whether all bytes from a place on are zeros.
fn is_zeros(options: &[u8], from: usize) -> bool
    ensures { IsTrue result ↔ IsZeros options.now from }
{
    for i in from..options.len() {
        if options[i] != 0 {
            return false;
        }
    }
    true
}

/// Reads how a path is to be opened: the flags, and the bytes of the options, of which a caller may have fewer than
/// this version, which are then as usual, or more, which then have to be zeros. Answers 0, or 24 where a
/// flag or an option isn't known, and then leaves what is asked for as it is.
#[unsafe(no_mangle)]
pub extern "C" fn sqr_options_read(flags: u32, options: &[u8], out: &mut Asked) -> u32
    ensures known { (result ≡ 0) ↔ AreKnown flags options.now }
    ensures asked { result ≡ 0 → AreAsked options.now out.new }
    ensures refused { result ≢ 0 → result ≡ 24 }
    ensures kept { result ≢ 0 → out.new ≡ out.old }
{
    if flags >= FLAGS_END || flags / COMPLETE % 2 != 0 || !is_zeros(options, END) {
        return UNKNOWN_OPTIONS;
    }
    *out = Asked {
        wait: option_at(options, 8, USUAL_WAIT),
        at: option_at(options, 12, 0),
    };
    0
}
