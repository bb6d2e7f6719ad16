// Blank lines and comments that were read with the class line or the member line before them.
ghost use Rattle.std.specs.Prelude.{◌≡◌, ◌+◌, ◌≤◌};
ghost use Rattle.load_rule.specs.Fates.{plus};
ghost use Rattle.load_rule.specs.Loading.{most_text};
ghost use Rattle.load_scan.specs.Inner.Bounds.{Within};
ghost use Rattle.load_members.specs.Inner.Passed.{passed_fates};

use load_residual::Passed;
use load_rule::Fates;

// What became of the lines, with those that are passed.
pub fn with_passed(fates: Fates, passed: Passed) -> Fates
    requires { Within fates most_text × (passed.blank + passed.applied + passed.idle ≤ most_text) }
    ensures { result ≡ plus fates (passed_fates passed) }
{
    let mut sum = fates;
    sum.lines += passed.blank + passed.applied + passed.idle;
    sum.blank += passed.blank;
    sum.applied += passed.applied;
    sum.idle += passed.idle;
    sum
}
