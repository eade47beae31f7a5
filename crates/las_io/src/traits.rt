// What a source has left and has given, what a sink holds, which files a shelf has, and how often each
// has failed.
ghost use Rattle.std.specs.Prelude.{◌≡◌, List, ℕ, ◌<◌, ◌≤◌, length, Bool, IsTrue, IfOk, Option, None, is_some, IsSome, IfSome};
ghost use Rattle.std.specs.Io.{ReadsAtMost, WritesAtMost};
ghost use Rattle.std.specs.Io.KnownBytes.{ReadConsumes, WriteAppends};
ghost use Rattle.las_io.specs.Counts.{HasCause, HasFaultCause, ReadCounts};
ghost use Rattle.las_io.specs.Names.{is_lawful_name};
ghost use Rattle.las_io.specs.Shelves.{AppendsPiece, BeginsFile, FetchCounts, File, FilesStay, HasNames, IsFetched, Told, begun_after, file_of};

/// A read failed.
#[derive(Clone, Copy, PartialEq, Eq, Debug)]
pub struct Failed;

/// Why a call on the outside did not succeed.
#[derive(Clone, Copy, PartialEq, Eq, Debug)]
pub enum IoBad {
    Failed,
    Memory,
}

/// Bytes that come in.
pub trait Source {
    /// The bytes left, where the source tells them.
    ghost left: { Self → Option (List ℕ) };

    /// How many bytes it has given.
    ghost given: { Self → ℕ };

    /// How often it has failed.
    ghost faults: { Self → ℕ };

    /// Copies the next bytes to the front of the buffer and says how many. `Ok(0)` for a buffer that is
    /// not empty is the end of input. After `Failed` the buffer's contents are open.
    fn read(&mut self, buf: &mut [u8]) -> Result<usize, Failed>
        ensures bound { ReadsAtMost result buf.new }
        ensures bytes { ReadConsumes (left self.old) (left self.new) result buf.new }
        ensures count { ReadCounts (given self.old) (given self.new) result }
        ensures cause { HasCause (faults self.old) (faults self.new) result };
}

/// Bytes that go out.
pub trait Sink {
    /// The bytes held, where the sink tells them.
    ghost held: { Self → Option (List ℕ) };

    /// How often it has failed.
    ghost faults: { Self → ℕ };

    /// Appends the first bytes of the piece and says how many: at least one of a piece that is not empty.
    fn write(&mut self, piece: &[u8]) -> Result<usize, IoBad>
        ensures bound { WritesAtMost result piece.now }
        ensures progress { IfOk result (λ n. 0 < length piece.now → 0 < n) }
        ensures bytes { WriteAppends (held self.old) (held self.new) result piece.now }
        ensures cause { HasFaultCause (faults self.old) (faults self.new) result };
}

/// Files by their names. One at a time is begun, grown piece by piece and finished; the others can be
/// fetched while none is begun.
pub trait Shelf {
    /// The files, where the shelf tells them; then their names are lawful and distinct, as each call says of
    /// the files that it leaves. A shelf that tells its files before a call tells them after it.
    ghost files: { Self → Option (List File) };

    /// The name of the file that is begun.
    ghost begun_name: { Self → Option (List ℕ) };

    /// What a fetch of a name may answer, as the shelf stands: whether there is such a file.
    ghost finds: { Self → List ℕ → Bool → Type 0 };

    /// How many bytes its fetches have given.
    ghost given: { Self → ℕ };

    /// How often it has failed.
    ghost faults: { Self → ℕ };

    /// Whether a file is begun.
    fn begun(&self) -> bool
        ensures is { result ≡ is_some (begun_name self.now) }
        ensures names { IfSome (files self.now) HasNames };

    /// Empties the file of this name, or makes it, and begins it. After `Failed` it is as before, empty
    /// or absent, and nothing is begun.
    fn begin(&mut self, name: &str) -> Result<(), IoBad>
        requires lawful { IsTrue (is_lawful_name name.now) }
        requires none_begun { begun_name self.old ≡ None }
        ensures files { Told (BeginsFile name.now result) (files self.old) (files self.new) }
        ensures names { IfSome (files self.new) HasNames }
        ensures begun { begun_name self.new ≡ begun_after name.now result }
        ensures count { given self.new ≡ given self.old }
        ensures cause { HasFaultCause (faults self.old) (faults self.new) result };

    /// Puts the piece to the end of the begun file. After `Failed` a prefix of it stands there.
    fn append(&mut self, piece: &[u8]) -> Result<(), IoBad>
        requires { IsSome (begun_name self.old) }
        ensures files { IfSome (begun_name self.old) (λ name.
            Told (AppendsPiece name piece.now result) (files self.old) (files self.new)) }
        ensures names { IfSome (files self.new) HasNames }
        ensures begun { begun_name self.new ≡ begun_name self.old }
        ensures count { given self.new ≡ given self.old }
        ensures cause { HasFaultCause (faults self.old) (faults self.new) result };

    /// Ends the begun file. In every case nothing is begun afterwards.
    fn finish(&mut self) -> Result<(), IoBad>
        requires { IsSome (begun_name self.old) }
        ensures files { FilesStay (files self.old) (files self.new) }
        ensures names { IfSome (files self.new) HasNames }
        ensures begun { begun_name self.new ≡ None }
        ensures count { given self.new ≡ given self.old }
        ensures cause { HasFaultCause (faults self.old) (faults self.new) result };

    /// Copies bytes of the file of this name, from place `at` on, to the front of the buffer and says how
    /// many: none of them only at the file's end. `None` is that there is no such file. Whatever it
    /// answers, the rest of the buffer is open.
    fn fetch(&mut self, name: &str, at: u64, buf: &mut [u8]) -> Result<Option<usize>, IoBad>
        requires lawful { IsTrue (is_lawful_name name.now) }
        requires none_begun { begun_name self.old ≡ None }
        ensures bound { IfOk result (λ answer. IfSome answer (λ n. n ≤ length buf.new)) }
        ensures bytes { IfOk result (λ answer. IfSome (files self.old) (λ fs.
            IsFetched (file_of fs name.now) at buf.new answer)) }
        ensures found { IfOk result (λ answer. finds self.old name.now (is_some answer)) }
        ensures files { FilesStay (files self.old) (files self.new) }
        ensures names { IfSome (files self.new) HasNames }
        ensures begun { begun_name self.new ≡ None }
        ensures count { FetchCounts (given self.old) (given self.new) result }
        ensures cause { HasFaultCause (faults self.old) (faults self.new) result };
}
