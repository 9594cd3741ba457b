//! Letters that are cut short, and how long letters are.

pub(super) const ROWS: &str = "
== A letter of which some bytes are cut off makes a mark and does not arrive.
nodes 2
tell 1 2
cut 1 16
--
cut 3 1 short 16
== Nor does it where one byte is cut off.
nodes 2
tell 1 2
cut 1 32
--
cut 3 1 short 32
== A letter of which all 33 bytes are left arrives.
nodes 2
tell 1 2
cut 1 33
--
== A letter tells no outcome that its receiver has acknowledged: cut to 32 bytes it is too short.
nodes 2
begin P 1
ask P C 1
giveup P C
tell 1 2
deliver 2
tell 2 1
deliver 3
tell 1 2
cut 4 32
--
action 1.1.1 open
  created
  asked 1.1.1/1.1.1
  child 1.1.1/1.1.1 aborted
cut 10 4 short 32
== The same letter is whole in 40 bytes, which would not hold the outcome too.
nodes 2
begin P 1
ask P C 1
giveup P C
tell 1 2
deliver 2
tell 2 1
deliver 3
tell 1 2
cut 4 40
--
action 1.1.1 open
  created
  asked 1.1.1/1.1.1
  child 1.1.1/1.1.1 aborted
== A node that has crashed counts nothing as acknowledged: the letter tells the outcome in 57 bytes.
nodes 2
begin P 1
ask P C 1
giveup P C
tell 1 2
deliver 2
tell 2 1
deliver 3
restart 1
tell 1 2
cut 4 56
cut 4 57
--
action 1.1.1 open
  created
  asked 1.1.1/1.1.1
  child 1.1.1/1.1.1 aborted
cut 11 4 short 56
== A node tells itself no outcomes: the letter in which its own top action quits has 43 bytes.
nodes 1
begin P 1
ask P C 1
giveup P C
abort P
cut 2 42
cut 2 43
--
action 1.1.1 aborted
  created
  asked 1.1.1/1.1.1
  child 1.1.1/1.1.1 aborted
  abort
cut 6 2 short 42
== Two letters come in the wrong order: what the one with more outcomes told is acknowledged.
nodes 2
begin P 1
ask P A 1
ask P B 1
giveup P A
tell 1 2
giveup P B
tell 1 2
deliver 4
deliver 3
tell 2 1
deliver 5
tell 1 2
cut 6 32
cut 6 33
--
action 1.1.1 open
  created
  asked 1.1.1/1.1.1
  asked 1.1.1/1.1.2
  child 1.1.1/1.1.1 aborted
  child 1.1.1/1.1.2 aborted
cut 14 6 short 32
";
