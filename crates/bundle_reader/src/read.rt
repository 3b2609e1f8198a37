//! A whole bundle read.

ghost use Rattle.std.specs.Prelude.{◌≡◌, ◌≢◌, ◌≤◌, ◌++◌, ◌∷◌, ℕ, List, IfOk, MatchOption, MatchResult, length};
ghost use Rattle.report_reader.specs.Words.{Reads};
ghost use Rattle.bundle_text.specs.Bundles.{IsBundle, bundle_text};
ghost use Rattle.bundle_text.specs.declared.bundle.Bundle.{Bundle};

use crate::fault::BundleFault;
use crate::many::all;
use crate::words::number_after;
use bundle_text::{Bundle, Listed, TracedQuery, TracedSection};
use std::alloc::Global;
use tube_io::NoMemory;

// A log of so many bytes, and what follows the byte 10 behind it.
fn log_of(bytes: &[u8], size: u32) -> Option<(&[u8], &[u8])>
    ensures { MatchOption result ((log rest : List ℕ) → length log ≡ size → log ++ 10 ∷ rest ≢ bytes.now) (λ p. (length p.0.now ≡ size) × (p.0.now ++ 10 ∷ p.1.now ≡ bytes.now)) }
{
    let (log, rest) = bytes.split_at_checked(size as usize)?;
    match rest {
        [b'\n', rest @ ..] => Some((log, rest)),
        _ => None,
    }
}

fn bundle_of(alloc: Global, bytes: &[u8]) -> Result<Option<Bundle>, NoMemory>
    requires { length bytes.now ≤ 1000000000 }
    ensures { IfOk result (Reads bundle_text IsBundle bytes.now) }
{
    let Some((size, rest)) = number_after(bytes, b"bundle ", b'\n') else {
        return Ok(None);
    };
    let Some((log, rest)) = log_of(rest, size) else {
        return Ok(None);
    };
    let (sections, rest) = all::<TracedSection>(alloc, rest)?;
    let (queries, rest) = all::<TracedQuery>(alloc, rest)?;
    if !rest.is_empty() {
        return Ok(None);
    }
    let log = Vec::from_slice(alloc, log)?;
    Ok(Some(Bundle {
        log: Listed::new(log),
        sections,
        queries,
    }))
}

/// The bundle whose text this is. A text that is no bundle's is refused with [`BundleFault::Form`].
///
/// Memory is taken for the bundle alone, and the log is copied.
pub fn read_bundle(alloc: Global, bytes: &[u8]) -> Result<Bundle, BundleFault>
    requires { length bytes.now ≤ 1000000000 }
    // What is read has this text.
    ensures ok { IfOk result (λ bundle. IsBundle bundle × (bundle_text bundle ≡ bytes.now)) }
    // The text of a bundle is read as that bundle, unless memory is refused. So `Form` comes exactly where it is no bundle's.
    ensures only { (b : Bundle) → IsBundle b → bundle_text b ≡ bytes.now → MatchResult result (λ bundle. bundle ≡ b) (λ e. e ≡ BundleFault.NoMemory) }
{
    match bundle_of(alloc, bytes)? {
        Some(bundle) => Ok(bundle),
        None => Err(BundleFault::Form),
    }
}
