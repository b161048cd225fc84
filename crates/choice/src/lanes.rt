// What is done in each of four lanes: four times the same, one after the other, with no branch between them.
ghost use Rattle.std.specs.Prelude.{◌≡◌, ◌&&◌};
ghost use Rattle.choice.specs.Each.{InEach, Beside};

use rules::Four;

// What f makes in each lane.
pub fn each<T, U, F: Fn(T) -> U>(of: Four<T>, f: F) -> Four<U>
    requires { InEach (F.pre f) of }
    ensures { Beside (F.post f) of result }
{
    Four {
        a: f(of.a),
        b: f(of.b),
        c: f(of.c),
        d: f(of.d),
    }
}

// Two values a lane.
pub fn pairs<T, U>(x: Four<T>, y: Four<U>) -> Four<(T, U)>
    ensures { result ≡ record { a = (x.a, y.a); b = (x.b, y.b); c = (x.c, y.c); d = (x.d, y.d) } }
{
    Four {
        a: (x.a, y.a),
        b: (x.b, y.b),
        c: (x.c, y.c),
        d: (x.d, y.d),
    }
}

// Whether a test holds in all four lanes.
pub fn all(tests: Four<bool>) -> bool
    ensures { result ≡ (tests.a && (tests.b && (tests.c && tests.d))) }
{
    tests.a & (tests.b & (tests.c & tests.d))
}
