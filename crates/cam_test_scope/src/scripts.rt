//! Scripts of the tests.

/// A top action writes at another node and commits; the line `lose 5` is refused.
pub(crate) const COMMIT: &str = "nodes 2
object x 2 register 0
begin T 1
call T x write 5
drain
commit T 7
lose 5
drain
";

/// A child calls beside its parent; then the parent asks to commit and cannot.
pub(crate) const CHILD: &str = "nodes 2
object x 2 register 0
begin T 1
ask T C 2
drain
call C x write 5
drain
commit T 7
";

/// Two actions at bodies write one after the other.
pub(crate) const BODIES: &str = "nodes 1
object x 1 counter 0
body adder
call 1 x add 2
commit 0
end
body pair
child 1 1 adder
child 1 1 adder
commit 0
end
start T 1 pair
play
";
