//! Actions that work at bodies.

pub(super) const ROWS: &str = "
== A crash aborts a child, and the parent asks for it a second time.
nodes 2
object a 1 register 100
object b 2 register 50
body debit
call 2 a read
call 2 a write $1-30
commit $1
end
body credit
call 2 b read
call 2 b write $1+30
commit 0
end
body transfer
child 2 1 debit
child 2 2 credit
commit $1
end
start T 1 transfer
restart 2
play
--
action 1.1.1 committed
  created
  asked 1.1.1/1.1.1
  child 1.1.1/1.1.1 committed 100
  asked 1.1.1/2.1.2
  child 1.1.1/2.1.2 aborted
  asked 1.1.1/2.2.3
  child 1.1.1/2.2.3 committed 0
  commit 100
action 1.1.1/1.1.1 committed
  created
  called 1 a read
  got 1 value 100
  called 2 a write 70
  got 2 ok
  commit 100
action 1.1.1/2.2.3 committed
  created
  called 1 b read
  got 1 value 50
  called 2 b write 80
  got 2 ok
  commit 0
value a 70
value b 80
== An action that was stopped at its home makes no further request.
nodes 3
object x 3 register 0
body b
call 1 x read
call 1 x read
commit 0
end
start S 2 b
go S
drain
restart 3
tell 3 2
drain
play
--
action 2.1.1 open
  created
  called 1 x read
  got 1 value 0
stop 7 2.1.1 crash 3 1 2
value x 0
";
