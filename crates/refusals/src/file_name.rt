//! The name of a file, held in an array.

ghost use Rattle.std.specs.Prelude.{◌≡◌, ◌≤◌, length};

use std::marker::Model;

/// The name of a file, of at most 64 bytes. It takes no memory.
#[derive(Clone, Copy, Debug, PartialEq, Eq)]
pub struct FileName {
    bytes: [u8; FileName::ROOM],
    len: usize,
}

impl Model for FileName {
    ghost use Rattle.std.specs.Prelude.{◌≡◌, ◌≤◌, ◌-◌, ◌++◌, ℕ, List, drop, length, replicate, take};
    ghost use Rattle.std.proofs.Common.{ap, arith, sym, ◌∙◌};
    ghost use Rattle.std.proofs.lemmas.List.{length-take-le, take-append-drop};

    ghost Value = { List ℕ };

    ghost view = { λ n. take n.len n.bytes };

    ghost invariant = { λ n. (n.len ≤ 64) × (length n.bytes ≡ 64) × (drop n.len n.bytes ≡ replicate (64 - n.len) 0) };

    ghost inverse = { λ name. record { bytes = name ++ replicate (64 - length name) 0; len = length name } };

    ghost inverse_ok = { λ n is.
        ap (λ l. record { bytes = take n.len n.bytes ++ replicate (64 - l) 0; len = l }) (length-take-le n.len n.bytes (Prim.omega (arith, is.0, is.1)))
        ∙ ap (λ b. record { bytes = b; len = n.len }) (ap (λ rest. take n.len n.bytes ++ rest) (sym is.2) ∙ take-append-drop n.len n.bytes) };
}

impl FileName {
    /// The most bytes of a name.
    pub const ROOM: usize = 64;

    /// Makes a name of these bytes, at most 64.
    pub fn of(name: &[u8]) -> FileName
        requires { length name.now ≤ FileName.ROOM }
        ensures { result ≡ name.now }
    {
        let mut bytes = [0; FileName::ROOM];
        let len = name.len();
        bytes[..len].copy_from_slice(name);
        FileName { bytes, len }
    }

    /// Returns the bytes of the name.
    pub fn as_bytes(&self) -> &[u8]
        ensures text { result.now ≡ self.now }
        ensures within { length result.now ≤ FileName.ROOM }
    {
        &self.bytes[..self.len]
    }
}
