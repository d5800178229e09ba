//! The header of a trace.

ghost use Rattle.std.specs.Prelude.{◌≡◌, ◌≤◌, ◌++◌, ℕ, List, drop, Some, None, IfErr, IfOk, OnOk, OnErr};
ghost use Rattle.lert_io.specs.Reading.{IfTold};
ghost use Rattle.lert_trace.specs.Trace.{header_len, trace_header, version_in};
ghost use Rattle.lert_trace.specs.Header.{HeaderFault};
ghost use Rattle.lert_trace.specs.Window.{StillAhead};

use crate::fault::TraceFault;
use crate::window::Window;
use lert_io::Source;

/// How many bytes a header has.
pub const HEADER: usize = 8;

// The place of the version in it.
const VERSION_AT: usize = 4;

/// Takes the header off the bytes of a window, and answers its version, 1 or 2.
pub fn read_header<S: Source>(window: &mut Window<S>) -> Result<u8, TraceFault>
    ensures header { IfTold (S.remaining window.old.source) (λ bytes.
        OnOk result (header_len (window.old.pending ++ bytes) ≡ 8)) }
    ensures version { IfTold (S.remaining window.old.source) (λ bytes.
        IfOk result (λ version. version ≡ version_in (window.old.pending ++ bytes))) }
    ensures within { IfOk result (λ version. (1 ≤ version) × (version ≤ 2)) }
    ensures taken { IfTold (S.remaining window.old.source) (λ bytes. OnOk result
        ((rest : List ℕ) × (S.remaining window.new.source ≡ Some rest)
        × (window.new.pending ++ rest ≡ drop 8 (window.old.pending ++ bytes)))) }
    ensures refused { OnErr result (StillAhead (S.remaining window.old.source) (S.remaining window.new.source)
        window.old.pending window.new.pending) }
    ensures fault { IfErr result (HeaderFault (S.remaining window.old.source) window.old.pending
        (S.faults window.old.source) (S.faults window.new.source)) }
    ensures untold { S.remaining window.old.source ≡ None → S.remaining window.new.source ≡ None }
    ensures never_falls { S.faults window.old.source ≤ S.faults window.new.source }
    ensures mark { S.mark window.new.source ≡ S.mark window.old.source }
{
    let _ = window.fill(HEADER)?;
    let version = named_version(window);
    let agreed = window.agreed(&header_of(version));
    if agreed < HEADER {
        return Err(TraceFault::BadHeader { at: agreed as u64 });
    }
    window.take(HEADER);
    Ok(version)
}

// The version that the pending bytes name, where they name one.
fn named_version<S: Source>(window: &Window<S>) -> u8
    ensures value { result ≡ version_in window.now.pending }
    ensures within { (1 ≤ result) × (result ≤ 2) }
{
    if window.byte_at(VERSION_AT) == Some(2) {
        2
    } else {
        1
    }
}

// The letters LERT, and a version.
fn header_of(version: u8) -> [u8; 8]
    ensures { result ≡ trace_header version }
{
    [0x4c, 0x45, 0x52, 0x54, version, 0x00, 0x00, 0x00]
}
