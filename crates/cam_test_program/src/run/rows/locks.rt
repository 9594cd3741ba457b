//! Locks, and calls that are not answered yet.

pub(super) const ROWS: &str = "
== An action whose call is not answered makes no other one.
nodes 1
object x 1 register 0
begin A 1
begin B 1
call A x write 5
deliver 1
deliver 2
call B x read
deliver 3
deliver 4
call B x read
call B x read
--
action 1.1.1 open
  created
  called 1 x write 5
  got 1 ok
action 1.1.2 open
  created
  called 1 x read
  got 1 busy 1.1.1
  called 2 x read
refused 12 L5
value x 0
== A call that comes again has its old answer again, though the lock is free; a new call reads.
nodes 1
object x 1 register 0
begin A 1
begin B 1
call A x write 7
drain
call B x read
drain
commit A 0
drain
deliver 3
call B x read
drain
--
action 1.1.1 committed
  created
  called 1 x write 7
  got 1 ok
  commit 0
action 1.1.2 open
  created
  called 1 x read
  got 1 busy 1.1.1
  called 2 x read
  got 2 value 7
value x 7
";
