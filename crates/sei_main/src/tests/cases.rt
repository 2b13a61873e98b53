//! Scripts with their reports. A case is a line `=== name`, the script, a line `--- status`, with `history`
//! after it if the entries are wanted, and the report.

/// How many cases there are.
pub const COUNT: u64 = 41;

pub const CASES: &str = r"=== a set and a get
geometry 1 1 3
open 0 plain
say 0 set a 0 0 1\r\nx\r\nget a\r\n
drain
--- 0
sent 0 STORED\r\n
sent 0 VALUE a 0 1\r\nx\r\nEND\r\n
took 0 2
end ok
=== a get of several keys
geometry 1 1 3
open 0 plain
say 0 set a 5 0 2\r\nhi\r\nget a b a\r\n
drain
--- 0
sent 0 STORED\r\n
sent 0 VALUE a 5 2\r\nhi\r\n
sent 0 VALUE a 5 2\r\nhi\r\nEND\r\n
took 0 3
end ok
=== a delete
geometry 1 1 3
open 0 plain
say 0 set a 0 0 1\r\nx\r\ndelete a\r\nget a\r\ndelete a\r\ndelete a 0 noreply\r\ndelete a 1\r\n
drain
--- 0
sent 0 STORED\r\n
sent 0 DELETED\r\n
sent 0 END\r\n
sent 0 NOT_FOUND\r\n
sent 0 CLIENT_ERROR bad command line format\r\n
took 0 5
end ok
=== a compare and set
geometry 1 1 3
open 0 plain
say 0 set a 0 0 1\r\nx\r\ngets a\r\ntouch a 0\r\ncas a 0 0 1 1\r\ny\r\ncas a 0 0 1 1\r\nz\r\ncas q 0 0 1 1\r\nz\r\ngets a\r\n
drain
--- 0
sent 0 STORED\r\n
sent 0 VALUE a 0 1 1\r\nx\r\nEND\r\n
sent 0 TOUCHED\r\n
sent 0 STORED\r\n
sent 0 EXISTS\r\n
sent 0 NOT_FOUND\r\n
sent 0 VALUE a 0 1 2\r\ny\r\nEND\r\n
took 0 7
end ok
=== an add and a replace
geometry 1 2 3
open 0 plain
say 0 replace a 1 0 1\r\nx\r\nadd a 2 0 1\r\ny\r\nadd a 3 0 1\r\nz\r\nreplace a 4 0 1\r\nw\r\nget a\r\n
drain
--- 0
sent 0 NOT_STORED\r\n
sent 0 STORED\r\n
sent 0 NOT_STORED\r\n
sent 0 STORED\r\n
sent 0 VALUE a 4 1\r\nw\r\nEND\r\n
took 0 5
end ok
=== a get and touch
geometry 1 2 3
open 0 plain
clock 100
say 0 set a 0 10 1\r\nx\r\ngat 50 a b\r\ngats 0 a\r\ntouch b 5\r\ntouch a 20\r\n
drain
clock 119
say 0 get a\r\n
drain
clock 120
say 0 get a\r\ngat -1 a\r\n
drain
--- 0
sent 0 STORED\r\n
sent 0 VALUE a 0 1\r\nx\r\n
sent 0 END\r\n
sent 0 VALUE a 0 1 1\r\nx\r\nEND\r\n
sent 0 NOT_FOUND\r\n
sent 0 TOUCHED\r\n
sent 0 VALUE a 0 1\r\nx\r\nEND\r\n
sent 0 END\r\n
sent 0 END\r\n
took 0 9
end ok
=== a flush of two buckets
geometry 2 1 3
open 0 plain
say 0 set a 0 0 1\r\nx\r\nset b 0 0 1\r\ny\r\nflush_all\r\nget a b\r\nflush_all 0 noreply\r\nflush_all 1\r\nset a 0 0 1\r\nz\r\n
drain
--- 0
sent 0 STORED\r\n
sent 0 STORED\r\n
sent 0 OK\r\n
sent 0 END\r\n
sent 0 CLIENT_ERROR bad command line format\r\n
sent 0 STORED\r\n
took 0 6
end ok
=== a struck compare and set
geometry 1 1 3
open 0 plain
fault 0 1 second store 1 write 1
say 0 set a 0 0 1\r\nx\r\ncas a 0 0 1 1\r\ny\r\n
drain
--- 3
sent 0 STORED\r\n
abort 0 1 verify differs 0
took 0 1
left 0 18
end aborted
=== a value over the limit
geometry 1 1 3
open 0 plain
say 0 set a 0 0 24\r\n012345678901234567890123\r\nset a 0 0 25\r\n0123456789012345678901234\r\nget a\r\n
drain
--- 0
sent 0 STORED\r\n
sent 0 SERVER_ERROR object too large for cache\r\n
sent 0 VALUE a 0 24\r\n012345678901234567890123\r\nEND\r\n
took 0 3
end ok
=== a block that is too long
geometry 1 1 3
open 0 plain
say 0 set a 0 0 1\r\nxyz\r\nversion\r\n
drain
--- 0
sent 0 CLIENT_ERROR bad data chunk\r\n
sent 0 ERROR\r\n
sent 0 VERSION 1.0.0-sei\r\n
took 0 3
end ok
=== no reply, and a full bucket
geometry 1 1 3
open 0 plain
say 0 set a 0 0 1 noreply\r\nx\r\nverbosity 1\r\nset b 0 0 1\r\ny\r\nincr a 1\r\n
drain
--- 0
sent 0 OK\r\n
sent 0 SERVER_ERROR out of memory storing object\r\n
sent 0 ERROR\r\n
took 0 3
end ok
=== a quit
geometry 1 1 3
open 0 plain
say 0 quit\r\nget a\r\n
drain
--- 0
closed 0
took 0 0
left 0 7
end ok
=== a request that closes the connection
geometry 1 1 3
open 0 plain
say 0 set a 0 0 1048577\r\nget a\r\n
drain
--- 0
sent 0 SERVER_ERROR object too large for cache\r\n
closed 0
took 0 1
left 0 7
end ok
=== a block that is not whole
geometry 1 1 3
open 0 plain
say 0 set a 0 0 5\r\nab
drain
--- 0
took 0 0
left 0 15
end ok
=== entries, one with an empty reply
geometry 1 1 3
open 0 plain
say 0 set a 0 0 1 noreply\r\nx\r\nget a\r\n
drain
--- 0 history
entry 0 0 0 0 -
entry 0 1 0 0 VALUE a 0 1\r\nx\r\nEND\r\n
sent 0 VALUE a 0 1\r\nx\r\nEND\r\n
took 0 1
end ok
=== an entry of which nothing was sent
geometry 1 1 3
open 0 plain
fault 0 0 send at 0 skip
say 0 set a 0 0 1\r\nx\r\n
drain
--- 3 history
entry 0 0 0 0 STORED\r\n
abort 0 0 done gate 9
took 0 0
left 0 16
end aborted
=== a clock, bytes in hexadecimal digits, and a fault line behind its traversal
geometry 1 1 3
open 0 plain
clock 1000
say 0 set a 0 100 1\r\nx\r\n
drain
clock 1099
hex 0 67657420610d0a
drain
clock 1100
hex 0 67657420610d0a
fault 0 3 guard at 0 skip
drain
--- 0 history
entry 0 0 0 1000 STORED\r\n
sent 0 STORED\r\n
entry 0 1 0 1099 VALUE a 0 1\r\nx\r\nEND\r\n
sent 0 VALUE a 0 1\r\nx\r\nEND\r\n
entry 0 2 0 1100 END\r\n
sent 0 END\r\n
took 0 3
end ok
=== items that expire
geometry 1 3 3
open 0 plain
clock 1000
say 0 set a 0 2592000 1\r\nx\r\nset b 0 2592001 1\r\ny\r\nset c 0 -1 1\r\nz\r\nget c\r\n
drain
clock 2592001
say 0 get a b\r\n
drain
clock 2593000
say 0 get a\r\n
drain
clock 5
say 0 get a\r\n
drain
--- 0
sent 0 STORED\r\n
sent 0 STORED\r\n
sent 0 STORED\r\n
sent 0 END\r\n
sent 0 VALUE a 0 1\r\nx\r\n
sent 0 END\r\n
sent 0 END\r\n
sent 0 END\r\n
took 0 8
end ok
=== a slot whose item has expired
geometry 1 1 3
open 0 plain
clock 100
say 0 set a 0 10 1\r\nx\r\nset b 0 0 1\r\ny\r\n
drain
clock 110
say 0 set b 0 0 1\r\ny\r\n
drain
--- 0
sent 0 STORED\r\n
sent 0 SERVER_ERROR out of memory storing object\r\n
sent 0 STORED\r\n
took 0 3
end ok
=== a traversal with two faults
geometry 1 1 3
open 0 plain
fault 0 0 guard at 0 skip
fault 0 0 send at 0 skip
--- 2
script line 4: second fault
=== second store 41 write 1
geometry 1 1 3
open 0 plain
fault 0 0 second store 41 write 1
say 0 set a 0 0 1\r\nx\r\n
drain
--- 3
abort 0 0 verify differs 8
took 0 0
left 0 16
end aborted
=== restore at 0 skip
geometry 1 1 3
open 0 plain
fault 0 0 restore at 0 skip
say 0 set a 0 0 1\r\nx\r\n
drain
--- 3
abort 0 0 compare differs 8
took 0 0
left 0 16
end aborted
=== restore at 0 read 0 1
geometry 1 1 3
open 0 plain
fault 0 0 restore at 0 read 0 1
say 0 set a 0 0 1\r\nx\r\n
drain
--- 3
abort 0 0 compare differs 8
took 0 0
left 0 16
end aborted
=== first now jump send 0
geometry 1 1 3
open 0 plain
fault 0 0 first now jump send 0
say 0 set a 0 0 1\r\nx\r\n
drain
--- 3
abort 0 0 send gate 2
took 0 0
left 0 16
end aborted
=== first now jump done 0
geometry 1 1 3
open 0 plain
fault 0 0 first now jump done 0
say 0 set a 0 0 1\r\nx\r\n
drain
--- 3
abort 0 0 done gate 2
took 0 0
left 0 16
end aborted
=== first now jump done 1
geometry 1 1 3
open 0 plain
fault 0 0 first now jump done 1
say 0 set a 0 0 1\r\nx\r\n
drain
--- 3
abort 0 0 first gate 2
took 0 0
left 0 16
end aborted
=== give at 0 jump first 0
geometry 1 1 3
open 0 plain
fault 0 0 give at 0 jump first 0
say 0 set a 0 0 1\r\nx\r\n
drain
--- 3
abort 0 0 first bucket
took 0 0
left 0 16
end aborted
=== send at 0 repeat
geometry 1 1 3
open 0 plain
fault 0 0 send at 0 repeat
say 0 set a 0 0 1\r\nx\r\n
drain
--- 3
sent 0 STORED\r\n
abort 0 0 send gate 10
took 0 1
left 0 16
end aborted
=== send at 0 skip
geometry 1 1 3
open 0 plain
fault 0 0 send at 0 skip
say 0 set a 0 0 1\r\nx\r\n
drain
--- 3
abort 0 0 done gate 9
took 0 0
left 0 16
end aborted
=== second render write 1
geometry 1 1 3
open 0 plain
fault 0 0 second render write 1
say 0 set a 0 0 1\r\nx\r\n
drain
--- 3
abort 0 0 compare reply
took 0 0
left 0 16
end aborted
=== compare at 0 flip
geometry 1 1 3
open 0 plain
fault 0 0 compare at 0 flip
say 0 set a 0 0 1\r\nx\r\n
drain
--- 3
abort 0 0 compare differs 0
took 0 0
left 0 16
end aborted
=== verify at 9 write 1
geometry 1 1 3
open 0 plain
fault 0 0 verify at 9 write 1
say 0 set a 0 0 1\r\nx\r\n
drain
--- 3
abort 0 0 verify wire
took 0 0
left 0 16
end aborted
=== a wrong hash leads to another slot
geometry 1 2 3
open 0 plain
fault 0 1 first load 3 read 1 1
say 0 set a 0 0 1\r\nx\r\nset a 0 0 1\r\ny\r\n
drain
--- 3
sent 0 STORED\r\n
abort 0 1 compare differs 1
took 0 1
left 0 16
end aborted
=== a wrong hash hides an item
geometry 1 1 3
open 0 plain
fault 0 1 first load 3 read 1 1
say 0 set a 0 0 1\r\nx\r\nget a\r\n
drain
--- 3
sent 0 STORED\r\n
abort 0 1 compare reply
took 0 1
left 0 7
end aborted
=== a second set changes three words
geometry 1 1 3
open 0 plain
fault 0 1 verify at 3 write 1
say 0 set a 0 0 1\r\nx\r\nset a 0 0 1\r\ny\r\n
drain
--- 3
sent 0 STORED\r\n
abort 0 1 verify wire
took 0 1
left 0 16
end aborted
=== a wrong word that is undone
geometry 1 1 3
open 0 plain
fault 0 0 first store 41 write 1
say 0 set a 0 0 1\r\nx\r\n
drain
--- 0
sent 0 STORED\r\n
took 0 1
end ok
=== another bucket is taken
geometry 2 1 3
open 0 plain
fault 0 0 take at 0 read 0 1
say 0 get a\r\n
drain
--- 3
abort 0 0 first bucket
took 0 0
left 0 7
end aborted
=== no bucket is lent where a slot is asked for
geometry 1 1 3
open 0 plain
fault 0 0 take at 0 jump first 953
say 0 set a 0 0 1\r\nx\r\n
drain
--- 3
abort 0 0 first budget
took 0 0
left 0 16
end aborted
=== a wrong time
geometry 1 1 3
open 0 plain
clock 100
fault 0 0 first now write 1
say 0 get a\r\n
drain
--- 3
abort 0 0 compare differs 0
took 0 0
left 0 7
end aborted
=== a refused set
geometry 1 1 3
open 0 plain
fault 0 0 guard at 0 flip
say 0 set a 0 0 1\r\nx\r\n
drain
--- 0
refused 0
took 0 0
left 0 16
end ok
=== a refused call of several, and what is fed behind it
geometry 1 1 3
open 0 plain
say 0 get a\r\nget a b\r\nget b\r\n
drain
say 0 get c\r\n
drain
fault 0 2 guard at 0 flip
--- 0
sent 0 END\r\n
refused 0
took 0 1
left 0 23
end ok
";
