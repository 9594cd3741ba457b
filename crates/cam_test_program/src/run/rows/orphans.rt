//! Orphans by aborts: children that were given up, and where they are stopped.

pub(super) const ROWS: &str = "
== An orphan is stopped before it sees one write of an action and not the other.
nodes 4
object x 2 register 1
object y 3 register 1
begin P 1
ask P C 4
drain
call C x read
drain
giveup P C
begin D 1
call D x write 2
drain
call D y write 2
drain
commit D 0
drain
call C y read
drain
--
action 1.1.1 open
  created
  asked 1.1.1/4.1.1
  child 1.1.1/4.1.1 aborted
action 1.1.1/4.1.1 aborted
  created
  called 1 x read
  got 1 value 1
  called 2 y read
action 1.1.2 committed
  created
  called 1 x write 2
  got 1 ok
  called 2 y write 2
  got 2 ok
  commit 0
stop 25 1.1.1/4.1.1 abort 1.1.1/4.1.1
stop 26 1.1.1/4.1.1 abort 1.1.1/4.1.1
value x 2
value y 2
== Where no letter tells of it, a child that was given up reads on, and nothing that it sees contradicts.
nodes 4
object x 2 register 1
object y 3 register 1
begin P 1
ask P C 4
drain
call C x read
drain
giveup P C
begin D 1
call D x write 2
drain
commit D 0
drain
call C y read
drain
--
action 1.1.1 open
  created
  asked 1.1.1/4.1.1
  child 1.1.1/4.1.1 aborted
action 1.1.1/4.1.1 aborted
  created
  called 1 x read
  got 1 value 1
  called 2 y read
  got 2 value 1
action 1.1.2 committed
  created
  called 1 x write 2
  got 1 ok
  commit 0
value x 2
value y 1
== The call of an orphan is stopped at its site, and the orphan at its home as the answer comes.
nodes 3
object x 2 register 0
begin P 1
ask P C 3
drain
giveup P C
tell 1 2
drain
call C x read
drain
--
action 1.1.1 open
  created
  asked 1.1.1/3.1.1
  child 1.1.1/3.1.1 aborted
action 1.1.1/3.1.1 aborted
  created
  called 1 x read
stop 7 1.1.1/3.1.1 abort 1.1.1/3.1.1
stop 8 1.1.1/3.1.1 abort 1.1.1/3.1.1
value x 0
== An orphan that asks for a child is stopped, and the line of that child is refused.
nodes 2
begin P 1
ask P C 2
drain
giveup P C
tell 1 2
drain
ask C D 1
drain
commit D 0
--
action 1.1.1 open
  created
  asked 1.1.1/2.1.1
  child 1.1.1/2.1.1 aborted
action 1.1.1/2.1.1 aborted
  created
stop 6 1.1.1/2.1.1 abort 1.1.1/2.1.1
refused 10 L1
== A child that was given up before its start came is not created.
nodes 2
begin A 1
ask A B 2
giveup A B
tell 1 2
deliver 2
deliver 1
drain
--
action 1.1.1 open
  created
  asked 1.1.1/2.1.1
  child 1.1.1/2.1.1 aborted
stop 5 1.1.1/2.1.1 abort 1.1.1/2.1.1
== Where two ancestors are known to be aborted, the stop names the one with the shorter name.
nodes 3
begin T 1
ask T P 2
drain
ask P C 3
drain
giveup P C
tell 2 3
giveup T P
tell 1 3
drain
ask C D 1
--
action 1.1.1 open
  created
  asked 1.1.1/2.1.1
  child 1.1.1/2.1.1 aborted
action 1.1.1/2.1.1 aborted
  created
  asked 1.1.1/2.1.1/3.1.1
  child 1.1.1/2.1.1/3.1.1 aborted
action 1.1.1/2.1.1/3.1.1 aborted
  created
stop 11 1.1.1/2.1.1/3.1.1 abort 1.1.1/2.1.1
== A child finishes at a parent that is an orphan: the parent is stopped, and the child stays open.
nodes 3
begin T 1
ask T P 2
drain
ask P B 3
drain
commit B 0
giveup T P
tell 1 2
deliver 4
deliver 3
--
action 1.1.1 open
  created
  asked 1.1.1/2.1.1
  child 1.1.1/2.1.1 aborted
action 1.1.1/2.1.1 aborted
  created
  asked 1.1.1/2.1.1/3.1.1
action 1.1.1/2.1.1/3.1.1 open
  created
  commit 0
stop 9 1.1.1/2.1.1 abort 1.1.1/2.1.1
== A child that aborts at a parent that is an orphan stays open too.
nodes 3
begin T 1
ask T P 2
drain
ask P B 3
drain
abort B
giveup T P
tell 1 2
deliver 4
deliver 3
--
action 1.1.1 open
  created
  asked 1.1.1/2.1.1
  child 1.1.1/2.1.1 aborted
action 1.1.1/2.1.1 aborted
  created
  asked 1.1.1/2.1.1/3.1.1
action 1.1.1/2.1.1/3.1.1 open
  created
  abort
stop 9 1.1.1/2.1.1 abort 1.1.1/2.1.1
";
