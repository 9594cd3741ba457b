//! Letters that come more than once: what they ask for is done once.

pub(super) const ROWS: &str = "
== A call that comes three times is performed once.
nodes 2
object q 2 queue
begin A 1
call A q put 9
deliver 1
deliver 1
deliver 1
drain
call A q size
drain
--
action 1.1.1 open
  created
  called 1 q put 9
  got 1 ok
  called 2 q size
  got 2 value 1
value q []
== A call that comes twice is answered twice; the second answer comes first, and the other is late.
nodes 1
object x 1 register 7
begin A 1
call A x swap 5
deliver 1
deliver 1
deliver 3
deliver 2
call A x read
deliver 4
deliver 5
--
action 1.1.1 open
  created
  called 1 x swap 5
  got 1 value 7
  called 2 x read
  got 2 value 5
value x 7
== A start that comes again creates nothing.
nodes 1
begin A 1
ask A B 1
deliver 1
deliver 1
--
action 1.1.1 open
  created
  asked 1.1.1/1.1.1
action 1.1.1/1.1.1 open
  created
== The call of an action that has committed comes again: it has no answer.
nodes 1
object x 1 register 0
begin A 1
call A x write 5
drain
commit A 0
drain
deliver 1
--
action 1.1.1 committed
  created
  called 1 x write 5
  got 1 ok
  commit 0
value x 5
== A call that was performed comes again: it has its answer again, though its action is an orphan.
nodes 2
object x 2 register 0
begin P 1
ask P C 1
drain
call C x write 5
deliver 2
giveup P C
tell 1 2
deliver 4
deliver 2
--
action 1.1.1 open
  created
  asked 1.1.1/1.1.1
  child 1.1.1/1.1.1 aborted
action 1.1.1/1.1.1 aborted
  created
  called 1 x write 5
value x 0
== A child that has committed finishes again.
nodes 2
begin P 1
ask P B 2
drain
commit B 0
deliver 2
deliver 2
--
action 1.1.1 open
  created
  asked 1.1.1/2.1.1
  child 1.1.1/2.1.1 committed 0
action 1.1.1/2.1.1 committed
  created
  commit 0
== A top action finishes again while it prepares.
nodes 1
begin A 1
commit A 0
deliver 1
deliver 1
drain
--
action 1.1.1 committed
  created
  commit 0
== A top action that has aborted quits again.
nodes 1
begin A 1
abort A
deliver 1
deliver 1
--
action 1.1.1 aborted
  created
  abort
== A prepare comes again when the outcome is known.
nodes 2
object x 2 register 0
begin A 1
call A x write 5
drain
commit A 0
drain
deliver 5
--
action 1.1.1 committed
  created
  called 1 x write 5
  got 1 ok
  commit 0
value x 5
== A vote comes again when the family has committed.
nodes 1
begin A 1
commit A 0
drain
deliver 3
--
action 1.1.1 committed
  created
  commit 0
";
