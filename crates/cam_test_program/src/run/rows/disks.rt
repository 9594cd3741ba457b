//! Disks that stop: which halts are taken and which are lost, and what stands after the restarts.

pub(super) const ROWS: &str = "
== The home's disk stops before the entry of a commit: the commit is lost, and the action aborts.
nodes 2
object x 2 register 0
begin A 1
call A x write 5
drain
commit A 0
deliver 3
deliver 4
deliver 5
deliver 6
stop 1 0
deliver 7
restart 1
query 2 A
drain
--
action 1.1.1 aborted
  created
  called 1 x write 5
  got 1 ok
  commit 0
halted 12 1 lost
value x 0
== The disk does one call of the entry: the commit is lost.
nodes 2
object x 2 register 0
begin A 1
call A x write 5
drain
commit A 0
deliver 3
deliver 4
deliver 5
deliver 6
stop 1 1
deliver 7
restart 1
query 2 A
drain
--
action 1.1.1 aborted
  created
  called 1 x write 5
  got 1 ok
  commit 0
halted 12 1 lost
value x 0
== The disk does two calls of the entry: the commit is lost.
nodes 2
object x 2 register 0
begin A 1
call A x write 5
drain
commit A 0
deliver 3
deliver 4
deliver 5
deliver 6
stop 1 2
deliver 7
restart 1
query 2 A
drain
--
action 1.1.1 aborted
  created
  called 1 x write 5
  got 1 ok
  commit 0
halted 12 1 lost
value x 0
== The disk does three calls of the entry: it stands, and the action has committed.
nodes 2
object x 2 register 0
begin A 1
call A x write 5
drain
commit A 0
deliver 3
deliver 4
deliver 5
deliver 6
stop 1 3
deliver 7
restart 1
query 2 A
drain
--
action 1.1.1 committed
  created
  called 1 x write 5
  got 1 ok
  commit 0
halted 12 1 taken
value x 5
== The disk does all four calls of the entry: no node halts.
nodes 2
object x 2 register 0
begin A 1
call A x write 5
drain
commit A 0
deliver 3
deliver 4
deliver 5
deliver 6
stop 1 4
deliver 7
restart 1
query 2 A
drain
--
action 1.1.1 committed
  created
  called 1 x write 5
  got 1 ok
  commit 0
value x 5
== The disk stops in its second entry, after three calls of it: that abort stands.
nodes 2
begin P 1
ask P A 1
ask P B 1
drain
stop 1 7
giveup P A
giveup P B
restart 1
tell 1 2
drain
--
action 1.1.1 open
  created
  asked 1.1.1/1.1.1
  asked 1.1.1/1.1.2
  child 1.1.1/1.1.1 aborted
  child 1.1.1/1.1.2 aborted
action 1.1.1/1.1.1 aborted
  created
action 1.1.1/1.1.2 aborted
  created
halted 8 1 taken
== The same with one call less: that abort is lost, and the child is open.
nodes 2
begin P 1
ask P A 1
ask P B 1
drain
stop 1 6
giveup P A
giveup P B
restart 1
tell 1 2
drain
--
action 1.1.1 open
  created
  asked 1.1.1/1.1.1
  asked 1.1.1/1.1.2
  child 1.1.1/1.1.1 aborted
action 1.1.1/1.1.1 aborted
  created
action 1.1.1/1.1.2 open
  created
halted 8 1 lost
== A later stop counts anew. A node that has halted takes no stop.
nodes 2
begin P 1
ask P A 1
ask P B 1
ask P C 1
drain
stop 1 7
giveup P A
stop 1 7
giveup P B
giveup P C
stop 1 0
restart 1
tell 1 2
drain
--
action 1.1.1 open
  created
  asked 1.1.1/1.1.1
  asked 1.1.1/1.1.2
  asked 1.1.1/1.1.3
  child 1.1.1/1.1.1 aborted
  child 1.1.1/1.1.2 aborted
  child 1.1.1/1.1.3 aborted
action 1.1.1/1.1.1 aborted
  created
action 1.1.1/1.1.2 aborted
  created
action 1.1.1/1.1.3 aborted
  created
halted 11 1 taken
refused 12 L3
== A restart ends a stop that has not been met.
nodes 2
begin P 1
ask P A 1
stop 1 0
restart 1
begin Q 1
ask Q D 1
giveup Q D
--
action 1.1.1 open
  created
  asked 1.1.1/1.1.1
action 1.2.1 open
  created
  asked 1.2.1/1.2.1
  child 1.2.1/1.2.1 aborted
== A node halts in the middle of a drain, and the letters for it wait.
nodes 2
object x 2 register 0
begin P 1
ask P A 1
drain
giveup P A
stop 2 3
call P x write 1
drain
call P x write 2
tell 1 2
restart 2
drain
--
action 1.1.1 open
  created
  asked 1.1.1/1.1.1
  child 1.1.1/1.1.1 aborted
  called 1 x write 1
action 1.1.1/1.1.1 aborted
  created
halted 9 2 taken
refused 10 L5
value x 0
== A home halts as it aborts what it had not decided: the abort stands, and a second query hears of it.
nodes 2
object x 2 register 0
begin A 1
call A x write 5
drain
commit A 0
deliver 3
deliver 5
restart 1
stop 1 3
query 2 A
drain
restart 1
query 2 A
drain
--
action 1.1.1 aborted
  created
  called 1 x write 5
  got 1 ok
  commit 0
halted 12 1 taken
value x 0
";
