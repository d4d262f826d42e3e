/// Texts of each form, as they are before they are changed.
pub const SAMPLES: [&[u8]; 14] = [
    b"book 2\n\
      object queue\n\
      callers 2\n\
      calls 1 1\n\
      0 0 enq 5 done view 0:1\n\
      1 0 deq =5 view 0:1 1:1\n\
      end\n",
    b"book 2\n\
      object casreg\n\
      callers 3\n\
      calls 1 3 0\n\
      0 0 cas 0 5 yes view 0:1\n\
      1 0 cas 0 7 no view 0:1 1:1\n\
      1 1 read =5 view 0:1 1:2\n\
      1 2 #7:3\n\
      end\n",
    b"book 2\n\
      object map\n\
      callers 1\n\
      calls 4\n\
      0 0 put 3 9 none view 0:1\n\
      0 1 get 3 =9 view 0:2\n\
      0 2 #9 #18446744073709551615 view 0:3\n\
      0 3 del 3\n\
      end\n",
    b"book 1\n\
      object stack\n\
      callers 2\n\
      calls 2 1\n\
      0 0 push 5 done view 1 0\n\
      0 1 pop\n\
      1 0 pop =5 view 1 1\n\
      end\n",
    b"book 1\n\
      object set\n\
      callers 1\n\
      calls 2\n\
      0 0 add 5 yes view 1\n\
      0 1 has 5 yes view 2\n\
      end\n",
    b"script 2\n\
      object queue\n\
      callers 2\n\
      calls 1 1\n\
      0 0 enq 5\n\
      1 0 deq\n\
      stop 0 2\n\
      turns 0 0 0 0 0 1 1 1 1 1\n\
      end\n",
    b"script 2\n\
      object casreg\n\
      callers 2\n\
      calls 0 2\n\
      1 0 cas 0 5\n\
      1 1 #12884901888\n\
      stop 1 9\n\
      turns\n\
      end\n",
    b"script 1\n\
      object counter\n\
      callers 3\n\
      calls 1 0 1\n\
      0 0 inc\n\
      2 0 #7\n\
      stop 0 3\n\
      stop 2 4\n\
      turns 0 2 1\n\
      end\n",
    b"report 2\n\
      object queue\n\
      callers 2\n\
      calls 2 1\n\
      0 0 enq 5 done view 0:1 ok seen 0:1\n\
      0 1 enq 6 pending\n\
      1 0 deq none view 0:1 1:1 error seen 0:1 1:1\n\
      end\n",
    b"report 2\n\
      object counter\n\
      callers 2\n\
      calls 1 2\n\
      0 0 inc =0 view 0:1 unchecked\n\
      1 0 inc =1 view 0:1 1:1 ok seen 1:1\n\
      1 1 inc =2 view 0:1 1:2 ok seen 1:2\n\
      end\n",
    b"book 2\n\
      object queue\n\
      callers 2\n\
      calls 1 1\n\
      0 0 enq 5 done view 0:1\n\
      1 0 deq =5 view 0:1 1:1\n\
      end\n\
      order 2\n\
      0 0 done\n\
      1 0 =5\n\
      end\n",
    b"book 2\n\
      object register\n\
      callers 2\n\
      calls 1 1\n\
      0 0 write 5 done view 0:1\n\
      1 0 read =5 view 0:1 1:1\n\
      end\n\
      order 2\n\
      1 0 =0\n\
      0 0 done\n\
      0 0 done\n\
      end\n",
    b"setbook 2\n\
      object joins\n\
      callers 2\n\
      calls 2 1\n\
      0 0 join 0 =3 view 0:1 1:1\n\
      0 1 join 31\n\
      1 0 join 1 =3 view 0:1 1:1\n\
      end\n",
    b"setbook 2\n\
      object joins\n\
      callers 1\n\
      calls 2\n\
      0 0 #7 bad view 0:1\n\
      0 1 #0:1 bad view 0:2\n\
      end\n",
];
