//! Numbers in order, and the numbers that are kept of a list.

ghost use Rattle.std.specs.Prelude.{◌≡◌, ◌+◌, ◌<◌, ◌≤◌, ◌^◌, is_some, length, take, true};
ghost use Rattle.std.specs.List.{range_with_len};
ghost use Rattle.schema_facts.specs.Lineage.{one_if};
ghost use Rattle.row_lines.specs.Kept.{kept_by};

/// Fills the list with the numbers from `first` on.
pub fn put_range(list: &mut [u64], first: u64)
    requires { first + length list.old < 2 ^ 64 }
    ensures { list.new ≡ range_with_len first (length list.old) }
{
    for (index, number) in list.iter_mut().enumerate() {
        *number = first + index as u64;
    }
}

/// Moves the numbers with a true flag at the same place to the start of the list. Returns how many there are. The loop doesn't
/// branch on a flag.
pub fn keep(list: &mut [u64], flags: &[bool]) -> usize
    requires { length flags.now ≡ length list.old }
    ensures count { result ≡ length (kept_by flags.now list.old) }
    ensures within { result ≤ length list.old }
    ensures kept { take result list.new ≡ kept_by flags.now list.old }
{
    let mut kept = 0;
    for index in 0..list.len() {
        list[kept] = list[index];
        kept += one_if(flags[index]);
    }
    kept
}

/// Keeps the numbers with a true flag, as `keep` does, if `by` has a column. Else the list stays as it is.
pub(crate) fn keep_found(by: Option<usize>, list: &mut [u64], flags: &[bool])
    requires { length flags.now ≡ length list.old }
    ensures kept { is_some by ≡ true → take (length (kept_by flags.now list.old)) list.new ≡ kept_by flags.now list.old }
    ensures same_length { length list.new ≡ length list.old }
{
    if by.is_some() {
        keep(list, flags);
    }
}

/// Returns 1 if a flag is true, else 0.
#[inline(always)]
fn one_if(flag: bool) -> usize
    ensures one { result ≡ one_if flag }
    ensures few { result ≤ 1 }
{
    flag as usize
}
