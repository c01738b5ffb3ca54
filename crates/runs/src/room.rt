// Room for a write in a lent run.
ghost use Rattle.std.specs.Prelude.{◌≡◌};
ghost use Rattle.runs.specs.Run.{lacks_room};

// Whether a run of so many elements has fewer than `size` from the start given, or ends before the start.
pub fn lacks_room(size: usize, start: usize, length: usize) -> bool
    ensures { result ≡ lacks_room size start length }
{
    length < start || length - start < size
}
