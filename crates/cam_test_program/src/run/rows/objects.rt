//! Queues, counters, and the ends of the numbers.

pub(super) const ROWS: &str = "
== A child's put is seen by its sibling once the queue's node has heard of its commit.
nodes 3
object x 3 queue
begin L 1
ask L A 1
ask L B 2
drain
call A x put 4
drain
commit A 1
drain
call B x size
drain
tell 1 2
drain
call B x size
drain
--
action 1.1.1 open
  created
  asked 1.1.1/1.1.1
  asked 1.1.1/2.1.2
  child 1.1.1/1.1.1 committed 1
action 1.1.1/1.1.1 committed
  created
  called 1 x put 4
  got 1 ok
  commit 1
action 1.1.1/2.1.2 open
  created
  called 1 x size
  got 1 busy 1.1.1/1.1.1
  called 2 x size
  got 2 value 1
value x []
== Two actions add to a counter side by side; one that reads is told busy until the other has committed.
nodes 1
object c 1 counter 10
begin A 1
begin B 1
call A c add 5
call B c add 7
drain
call A c read
drain
commit B 0
drain
call A c read
drain
--
action 1.1.1 open
  created
  called 1 c add 5
  got 1 ok
  called 2 c read
  got 2 busy 1.1.2
  called 3 c read
  got 3 value 22
action 1.1.2 committed
  created
  called 1 c add 7
  got 1 ok
  commit 0
value c 17
== One more than the greatest number is the least number.
nodes 1
object c 1 counter 9223372036854775807
begin A 1
call A c add 1
drain
call A c read
drain
--
action 1.1.1 open
  created
  called 1 c add 1
  got 1 ok
  called 2 c read
  got 2 value -9223372036854775808
value c 9223372036854775807
== A register holds the least number, then the greatest; there is nothing to take from an empty queue.
nodes 1
object r 1 register -9223372036854775808
object q 1 queue
begin A 1
call A r swap 9223372036854775807
drain
call A q take
drain
--
action 1.1.1 open
  created
  called 1 r swap 9223372036854775807
  got 1 value -9223372036854775808
  called 2 q take
  got 2 empty
value r -9223372036854775808
value q []
";
