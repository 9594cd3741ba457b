//! Actions and their children.

pub(super) const ROWS: &str = "
== Where nothing was done the report is empty.
nodes 1
--
== A child's lock goes to its parent as it commits; a sibling reads once the object's node knows.
nodes 3
object x 3 register 0
begin L 1
ask L A 1
ask L B 2
drain
call A x write 4
drain
commit A 1
drain
call B x read
drain
tell 1 2
drain
call B x read
drain
--
action 1.1.1 open
  created
  asked 1.1.1/1.1.1
  asked 1.1.1/2.1.2
  child 1.1.1/1.1.1 committed 1
action 1.1.1/1.1.1 committed
  created
  called 1 x write 4
  got 1 ok
  commit 1
action 1.1.1/2.1.2 open
  created
  called 1 x read
  got 1 busy 1.1.1/1.1.1
  called 2 x read
  got 2 value 4
value x 0
== A sibling's call brings the news of the commit itself, so its read is not told busy.
nodes 2
object x 2 register 0
begin P 1
ask P A 1
ask P B 1
drain
call A x write 4
drain
commit A 0
drain
call B x read
drain
--
action 1.1.1 open
  created
  asked 1.1.1/1.1.1
  asked 1.1.1/1.1.2
  child 1.1.1/1.1.1 committed 0
action 1.1.1/1.1.1 committed
  created
  called 1 x write 4
  got 1 ok
  commit 0
action 1.1.1/1.1.2 open
  created
  called 1 x read
  got 1 value 4
value x 0
== One letter tells of a child that committed and of one that was given up.
nodes 2
begin P 1
ask P A 1
ask P B 1
drain
commit A 0
drain
giveup P B
tell 1 2
drain
--
action 1.1.1 open
  created
  asked 1.1.1/1.1.1
  asked 1.1.1/1.1.2
  child 1.1.1/1.1.1 committed 0
  child 1.1.1/1.1.2 aborted
action 1.1.1/1.1.1 committed
  created
  commit 0
action 1.1.1/1.1.2 aborted
  created
== An action with a child that is not decided may not ask to commit.
nodes 1
begin P 1
ask P B 1
commit P 0
--
action 1.1.1 open
  created
  asked 1.1.1/1.1.1
refused 4 L6
== An action whose name has eight parts asks for no child.
nodes 1
begin A1 1
ask A1 A2 1
drain
ask A2 A3 1
drain
ask A3 A4 1
drain
ask A4 A5 1
drain
ask A5 A6 1
drain
ask A6 A7 1
drain
ask A7 A8 1
drain
ask A8 A9 1
--
action 1.1.1 open
  created
  asked 1.1.1/1.1.1
action 1.1.1/1.1.1 open
  created
  asked 1.1.1/1.1.1/1.1.1
action 1.1.1/1.1.1/1.1.1 open
  created
  asked 1.1.1/1.1.1/1.1.1/1.1.1
action 1.1.1/1.1.1/1.1.1/1.1.1 open
  created
  asked 1.1.1/1.1.1/1.1.1/1.1.1/1.1.1
action 1.1.1/1.1.1/1.1.1/1.1.1/1.1.1 open
  created
  asked 1.1.1/1.1.1/1.1.1/1.1.1/1.1.1/1.1.1
action 1.1.1/1.1.1/1.1.1/1.1.1/1.1.1/1.1.1 open
  created
  asked 1.1.1/1.1.1/1.1.1/1.1.1/1.1.1/1.1.1/1.1.1
action 1.1.1/1.1.1/1.1.1/1.1.1/1.1.1/1.1.1/1.1.1 open
  created
  asked 1.1.1/1.1.1/1.1.1/1.1.1/1.1.1/1.1.1/1.1.1/1.1.1
action 1.1.1/1.1.1/1.1.1/1.1.1/1.1.1/1.1.1/1.1.1/1.1.1 open
  created
refused 17 L8
";
