// Which rules tell: the unit's own, asked through their trait, and one of another crate's, which tells in its own way and proves nothing for it.
use crate::channel::Quad;
use crate::linear::Linear;
use crate::rounded::Rounded;
use crate::rule::Reduce;
use rules::Packing;

// The first of the four, by itself.
struct First;

impl Reduce for First {
    ghost rule = { λ _ a _ _ _. a };

    fn reduced(&self, q: Quad<u32>) -> u32 {
        q.p00
    }

    fn tells(&self) -> bool {
        true
    }
}

fn tells_how<R: Reduce>(rule: &R) -> (bool, bool) {
    (rule.tells(), rule.by_wholes())
}

#[test]
fn a_rule_tells_by_wholes_or_by_itself(rt: HostRuntime) {
    let truncating = Linear {
        packing: Packing::Truncating,
    };
    assert!(rt; tells_how(&Rounded) == (true, true));
    assert!(rt; tells_how(&truncating) == (false, false));
    assert!(rt; tells_how(&First) == (true, false));
}
