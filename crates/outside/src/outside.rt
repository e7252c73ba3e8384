// What the tool asks of the outside.
ghost use Rattle.std.specs.Prelude.{◌≡◌, ℕ, ◌+◌, ◌<◌, ◌≤◌, List, Option, length, take, drop, OnOk, IfOk, IfSome};
ghost use Rattle.std.specs.Prelude.{MatchResult};
ghost use Rattle.std.specs.Io.{ReadsAtMost};
ghost use Rattle.std.specs.Io.KnownBytes.{Appends, ReadConsumes};
ghost use Rattle.outside.specs.Bytes.{AreBytes};
ghost use Rattle.outside.specs.Outside.{next_count, HasCause, AppendsFront, Writes, WritesFront};

/// A call of the outside failed, and the object's count of faults rose. A call that does not fail leaves the count.
#[derive(Clone, Copy, Debug, PartialEq, Eq)]
pub struct Failed;

/// Bytes that come in, such as a script.
pub trait Source {
    // The bytes that are left, where the source tells them.
    ghost left: { Self → Option (List ℕ) };

    // How often it has failed.
    ghost faults: { Self → ℕ };

    /// Gives the next bytes, from one to as many as `into` has places, and answers how many. 0 says that none are left.
    /// After a fault nothing was taken.
    fn take(&mut self, into: &mut [u8]) -> Result<usize, Failed>
        requires { 0 < length into.old }
        ensures bound { ReadsAtMost result into.new }
        ensures bytes { ReadConsumes (left self.old) (left self.new) result into.new }
        ensures cause { HasCause (faults self.old) (faults self.new) result };

    // What is left are bytes.
    ghost left_bytes: { (s : Self) → IfSome (left s) AreBytes };
}

/// Bytes that go out, such as text.
pub trait Sink {
    // The bytes that it was given, where the sink tells them.
    ghost given: { Self → Option (List ℕ) };

    // How often it has failed.
    ghost faults: { Self → ℕ };

    /// Appends the whole piece. After a fault some front of it was appended.
    fn put(&mut self, bytes: &[u8]) -> Result<(), Failed>
        ensures bytes { MatchResult result (λ _. Appends (given self.old) (given self.new) bytes.now)
            (λ _. AppendsFront (given self.old) (given self.new) bytes.now) }
        ensures cause { HasCause (faults self.old) (faults self.new) result };
}

/// Bytes that are kept, such as an image, and can be read.
pub trait Load {
    // The bytes that it holds, where it tells them.
    ghost holds: { Self → Option (List ℕ) };

    // How often it has failed.
    ghost faults: { Self → ℕ };

    // How often it was asked to write.
    ghost writes: { Self → ℕ };

    // How often its size was not told, or it was not read.
    ghost read_faults: { Self → ℕ };

    /// The number of bytes.
    fn size(&mut self) -> Result<u64, Failed>
        ensures bytes { IfSome (holds self.old) (λ bs. IfOk result (λ n. n ≡ length bs)) }
        ensures same { holds self.new ≡ holds self.old }
        ensures unwritten { writes self.new ≡ writes self.old }
        ensures cause { HasCause (faults self.old) (faults self.new) result }
        ensures read_cause { HasCause (read_faults self.old) (read_faults self.new) result };

    /// Fills `into` with the bytes from `at` on. An object that does not tell its bytes fails where they end before.
    fn read_at(&mut self, at: u64, into: &mut [u8]) -> Result<(), Failed>
        requires { IfSome (holds self.old) (λ bs. at + length into.old ≤ length bs) }
        ensures bytes { OnOk result (IfSome (holds self.old) (λ bs. into.new ≡ take (length into.old) (drop at bs))) }
        ensures same { holds self.new ≡ holds self.old }
        ensures unwritten { writes self.new ≡ writes self.old }
        ensures cause { HasCause (faults self.old) (faults self.new) result }
        ensures read_cause { HasCause (read_faults self.old) (read_faults self.new) result };

    // What it holds are bytes.
    ghost held_bytes: { (s : Self) → IfSome (holds s) AreBytes };
}

/// Bytes that are kept, and can also be written.
pub trait Store: Load {
    /// Writes the bytes from `at` on; the store grows where they pass its end. After a fault some front of them was
    /// written.
    fn write_at(&mut self, at: u64, bytes: &[u8]) -> Result<(), Failed>
        requires { IfSome (Self.holds self.old) (λ bs. at ≤ length bs) }
        ensures bytes { MatchResult result (λ _. Writes (Self.holds self.old) (Self.holds self.new) at bytes.now)
            (λ _. WritesFront (Self.holds self.old) (Self.holds self.new) at bytes.now) }
        ensures counted { Self.writes self.new ≡ next_count (Self.writes self.old) }
        ensures unread { Self.read_faults self.new ≡ Self.read_faults self.old }
        ensures cause { HasCause (Self.faults self.old) (Self.faults self.new) result };
}
