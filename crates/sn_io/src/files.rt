//! Files to read.
ghost use Rattle.std.specs.Prelude.{◌<◌, ◌≤◌, length, IsTrue, OnOk, OnErr, IfOk};
ghost use Rattle.std.specs.Prelude.{false};
ghost use Rattle.sn_io.specs.Files.{FilesState, Opens, IsOpened, IsFault, Reads, Gives, GivesNothing};

/// A call of files or of a sink failed. The object's count of faults tells that it did.
#[derive(Clone, Copy, Debug, PartialEq, Eq)]
pub struct Failed;

/// Files that are opened by name, one at a time, and read from their start.
pub trait Files {
    ghost state: { Self → FilesState };

    /// Opens the file of a name in place of the one that is open. A missing file is a fault.
    fn open(&mut self, name: &[u8]) -> Result<(), Failed>
        ensures opens { Opens (state self.old) (state self.new) name.now }
        ensures opened { OnOk result (IsOpened (state self.old) (state self.new) name.now) }
        ensures fault { OnErr result (IsFault (state self.old) (state self.new) false) };

    /// Puts the next bytes of the open file at the start of the buffer, and answers how many: 0 at the end alone.
    fn read(&mut self, buf: &mut [u8]) -> Result<usize, Failed>
        requires is_open { IsTrue (state self.old).is_open }
        requires room { 0 < length buf.old }
        ensures reads { Reads (state self.old) (state self.new) }
        ensures fits { IfOk result (λ count. count ≤ length buf.new) }
        ensures gives { IfOk result (λ count. Gives (state self.old) (state self.new) buf.new count) }
        ensures fault { OnErr result (GivesNothing (state self.old) (state self.new)) };
}
