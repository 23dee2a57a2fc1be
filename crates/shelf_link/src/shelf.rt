//! What holds images under block numbers.

ghost use Rattle.std.specs.Prelude.{◌≡◌, ◌≤◌, length, take, OnOk, IfOk, Some, None};
ghost use Rattle.far_io.specs.Faults.{Faults, HasCause};
ghost use Rattle.shelf_link.specs.Told.{Told, StandsThere, IsSameKind, KeepsOthers, IsWithin, IsGot, Gives};
ghost use Rattle.std.specs.Option.{option_copied};

use far_io::Failed;

/// What a get found.
#[derive(Clone, Copy, PartialEq, Eq, Debug)]
pub enum Got {
    /// Nothing is held under the block.
    Absent,
    /// So many bytes are held, and stand at the front of the buffer.
    Bytes(usize),
    /// So many bytes are held, which are more than the buffer's.
    Longer(u64),
}

/// What holds images under block numbers. A call may fail.
pub trait Shelf {
    // The content, where it is told, and whether the shelf tells that it is void.
    ghost told: { Self → Told };

    // The count of faults so far, and the greatest count that it can ever reach, where the object tells that.
    ghost faults: { Self → Faults };

    /// Makes the shelf hold these bytes under a block, in place of what stood there. One that fails leaves open what
    /// stands under that block.
    fn put(&mut self, block: u64, bytes: &[u8]) -> Result<(), Failed>
        ensures held { OnOk result (StandsThere (told self.new) block (Some bytes.now)) }
        ensures others { KeepsOthers (told self.old) (told self.new) block }
        ensures kind { IsSameKind (told self.old) (told self.new) }
        ensures cause { HasCause (faults self.old) (faults self.new) result };

    /// Gives what is held under a block, at the front of `out`, or says how long it is where that is more than `out`
    /// has room for. It changes nothing of what is held.
    fn get(&mut self, block: u64, out: &mut [u8]) -> Result<Got, Failed>
        ensures gives { IfOk result (Gives (told self.old) block out.new) }
        ensures bound { IfOk result (IsWithin out.new) }
        ensures same { told self.new ≡ told self.old }
        ensures cause { HasCause (faults self.old) (faults self.new) result };

    /// Leaves nothing under a block. One that fails leaves open what stands under that block.
    fn remove(&mut self, block: u64) -> Result<(), Failed>
        ensures gone { OnOk result (StandsThere (told self.new) block None) }
        ensures others { KeepsOthers (told self.old) (told self.new) block }
        ensures kind { IsSameKind (told self.old) (told self.new) }
        ensures cause { HasCause (faults self.old) (faults self.new) result };
}

/// Writes bytes at the front of others.
pub(crate) fn fill(out: &mut [u8], bytes: &[u8])
    requires { length bytes.now ≤ length out.old }
    ensures { take (length bytes.now) out.new ≡ bytes.now }
{
    out[..bytes.len()].copy_from_slice(bytes);
}

/// Gives these bytes at the front of `out`, or says how many they are where they are more than it has room for.
pub(crate) fn hand_out(held: Option<&[u8]>, out: &mut [u8]) -> Got
    ensures got { IsGot (option_copied held.entry) out.new result }
    ensures bound { IsWithin out.new result }
{
    match held {
        None => Got::Absent,
        Some(bytes) => {
            let count = bytes.len();
            if out.len() < count {
                return Got::Longer(count as u64);
            }
            fill(out, bytes);
            Got::Bytes(count)
        }
    }
}
