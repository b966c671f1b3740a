//! Making the tables of a permutation's rounds.

ghost use Rattle.std.specs.Prelude.{◌≡◌, ◌+◌, ◌*◌, ◌<◌, ◌≤◌, ◌^◌, ◌++◌, IfOk, OnOk};
ghost use Rattle.id_permutation.specs.Tables.{round_values, pair_values, tables_of};

use crate::network::{Network, round_number};
use fixed_divisors::FixedDivisor;
use out_of_memory::Memory;
use std::alloc::Global;

/// Makes the tables of the six rounds, one after the other. The sides must be at most 2^16. Each entry is below the side that its
/// round moves.
pub fn tables(alloc: Global, network: &Network) -> Result<Vec<u16>, Memory>
    requires low { network.now.height ≤ 2 ^ 16 }
    requires narrow { network.now.width ≤ 2 ^ 16 }
    ensures { IfOk result (λ tables. tables.items ≡ tables_of network.now.height network.now.width network.now.seed) }
{
    let entries = 3 * (network.height.number() + network.width.number());
    let mut tables = Vec::with_capacity(alloc, entries as usize)?;
    put_pair(&mut tables, network, 0)?;
    put_pair(&mut tables, network, 1)?;
    put_pair(&mut tables, network, 2)?;
    Ok(tables)
}

/// Appends the tables of an even round and the odd round after it.
fn put_pair(tables: &mut Vec<u16>, network: &Network, pair: u32) -> Result<(), Memory>
    requires few { pair < 3 }
    requires low { network.now.height ≤ 2 ^ 16 }
    requires narrow { network.now.width ≤ 2 ^ 16 }
    ensures { OnOk result (tables.new.items ≡ tables.old.items ++ pair_values network.now.height network.now.width network.now.seed pair) }
{
    let seed = network.seed;
    let height = network.height.number();
    let width = network.width.number();
    put_round(tables, seed, 2 * pair, network.height, width)?;
    put_round(tables, seed, 2 * pair + 1, network.width, height)?;
    Ok(())
}

/// Appends the values that the function of round `index` gives for the numbers below `count`, modulo `modulus`.
fn put_round(
    tables: &mut Vec<u16>,
    seed: u64,
    index: u32,
    modulus: FixedDivisor,
    count: u64,
) -> Result<(), Memory>
    requires small { modulus ≤ 2 ^ 16 }
    requires few { count ≤ 2 ^ 16 }
    ensures { OnOk result (tables.new.items ≡ tables.old.items ++ round_values seed index modulus count) }
{
    for half in 0..count {
        tables.push(modulus.remainder(round_number(seed, index, half)) as u16)?;
    }
    Ok(())
}
