// Text put into a run.
ghost use Rattle.std.specs.Prelude.{◌≡◌};
ghost use Rattle.text.specs.Gathered.{place_after, out_after};

// A place goes beside the run, and no type holds both: what this call promises (`place_after`, `out_after`) is said of the two.
pub fn append(text: &[u8], out: &mut [u8], at: usize) -> usize
    ensures { (result ≡ place_after text.now at out.old) × (out.new ≡ out_after text.now at out.old) }
{
    if runs::lacks_room(text.len(), at, out.len()) {
        return at;
    }
    let end = at + text.len();
    out[at..end].copy_from_slice(text);
    end
}
