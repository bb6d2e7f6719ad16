// Numbers of four bytes, written.
ghost use Rattle.std.specs.Prelude.{◌≡◌, ◌+◌, ◌≤◌, length};
ghost use Rattle.ground.specs.Put.{put};
ghost use Rattle.tree_rule.specs.Words.{word_bytes};

// A number at a place: its lowest byte comes first.
pub fn put_word(out: &mut [u8], at: usize, value: u32)
    requires { at + 4 ≤ length out.old }
    ensures { out.new ≡ put out.old at (word_bytes value) }
{
    out[at] = (value % 256) as u8;
    out[at + 1] = (value / 256 % 256) as u8;
    out[at + 2] = (value / 65536 % 256) as u8;
    out[at + 3] = (value / 16777216 % 256) as u8;
}
