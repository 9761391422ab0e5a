//! The packets of a session, with their answers.

/// In order; without commands of the debugger's user.
pub const CRASH: &str = "\
@ THREADS_AT_START
# The threads before the first instruction.
l<?xml version=\"1.0\"?><threads><thread id=\"1\" core=\"0\" name=\"core 0\">retired 0 of 56</thread><thread id=\"2\
    \" core=\"1\" name=\"core 1\">retired 0 of 11</thread></threads>

@ REGISTERS_AT_FAULT
# The registers of core 1 there.
00000000140000000088000000000000000000000080000000000000000000000000000000000000010000000000000000000000000000000010\
    0000f0ffff7f0000000000000000000000000000000000000000000000000000000000000000000000000000000000000000000000000000\
    0000000000000000000000000000300000000b0000000b000000

@ THREADS_AT_FAULT
# The threads where core 1 has met its fault.
l<?xml version=\"1.0\"?><threads><thread id=\"1\" core=\"0\" name=\"core 0\">retired 13 of 56</thread><thread id=\"2\
    \" core=\"1\" name=\"core 1\">retired 11 of 11, address</thread></threads>

> qSupported:multiprocess+;swbreak+;hwbreak+;qRelocInsn+;fork-events+;vfork-events+;exec-events+;vContSupported+;QTh\
    readEvents+;no-resumed+;memory-tagging+;xmlRegisters=i386
< PacketSize=1000;QStartNoAckMode+;vContSupported+;swbreak+;hwbreak+;ReverseStep+;ReverseContinue+;qXfer:features:re\
    ad+;qXfer:threads:read+
> vMustReplyEmpty
<
> QStartNoAckMode
< OK
> Hg0
< OK
> qXfer:features:read:target.xml:0,ffb
< l<?xml version=\"1.0\"?><!DOCTYPE target SYSTEM \"gdb-target.dtd\"><target version=\"1.0\"><architecture>riscv:rv3\
    2</architecture><osabi>none</osabi><feature name=\"org.gnu.gdb.riscv.cpu\"><reg name=\"zero\" bitsize=\"32\" typ\
    e=\"int\"/><reg name=\"ra\" bitsize=\"32\" type=\"code_ptr\"/><reg name=\"sp\" bitsize=\"32\" type=\"data_ptr\"/\
    ><reg name=\"gp\" bitsize=\"32\" type=\"data_ptr\"/><reg name=\"tp\" bitsize=\"32\" type=\"data_ptr\"/><reg name\
    =\"t0\" bitsize=\"32\" type=\"int\"/><reg name=\"t1\" bitsize=\"32\" type=\"int\"/><reg name=\"t2\" bitsize=\"32\
    \" type=\"int\"/><reg name=\"fp\" bitsize=\"32\" type=\"data_ptr\"/><reg name=\"s1\" bitsize=\"32\" type=\"int\"\
    /><reg name=\"a0\" bitsize=\"32\" type=\"int\"/><reg name=\"a1\" bitsize=\"32\" type=\"int\"/><reg name=\"a2\" b\
    itsize=\"32\" type=\"int\"/><reg name=\"a3\" bitsize=\"32\" type=\"int\"/><reg name=\"a4\" bitsize=\"32\" type=\
    \"int\"/><reg name=\"a5\" bitsize=\"32\" type=\"int\"/><reg name=\"a6\" bitsize=\"32\" type=\"int\"/><reg name=\
    \"a7\" bitsize=\"32\" type=\"int\"/><reg name=\"s2\" bitsize=\"32\" type=\"int\"/><reg name=\"s3\" bitsize=\"32\
    \" type=\"int\"/><reg name=\"s4\" bitsize=\"32\" type=\"int\"/><reg name=\"s5\" bitsize=\"32\" type=\"int\"/><re\
    g name=\"s6\" bitsize=\"32\" type=\"int\"/><reg name=\"s7\" bitsize=\"32\" type=\"int\"/><reg name=\"s8\" bitsiz\
    e=\"32\" type=\"int\"/><reg name=\"s9\" bitsize=\"32\" type=\"int\"/><reg name=\"s10\" bitsize=\"32\" type=\"int\
    \"/><reg name=\"s11\" bitsize=\"32\" type=\"int\"/><reg name=\"t3\" bitsize=\"32\" type=\"int\"/><reg name=\"t4\
    \" bitsize=\"32\" type=\"int\"/><reg name=\"t5\" bitsize=\"32\" type=\"int\"/><reg name=\"t6\" bitsize=\"32\" ty\
    pe=\"int\"/><reg name=\"pc\" bitsize=\"32\" type=\"code_ptr\"/></feature><feature name=\"org.rtr.core\"><reg nam\
    e=\"retired\" bitsize=\"32\" type=\"uint32\" group=\"rtr\"/><reg name=\"total\" bitsize=\"32\" type=\"uint32\" g\
    roup=\"rtr\"/></feature></target>
> qTStatus
<
> ?
< T05thread:1;
> qXfer:threads:read::0,ffb
< @THREADS_AT_START
> qAttached
< 1
> Hc-1
< OK
> qOffsets
<
> g
< 000000000000000000000000000000000000000000000000000000000000000000000000000000000000000000000000000000000000000000\
    0000000000000000000000000000000000000000000000000000000000000000000000000000000000000000000000000000000000000000\
    000000000000000000000000000000000000000000000038000000
> qXfer:threads:read::0,ffb
< @THREADS_AT_START
> qSymbol::
<
> vCont?
< vCont;c;C;s;S;r
> vCont;c
< T0bthread:2;
> g
< @REGISTERS_AT_FAULT
> qXfer:threads:read::0,ffb
< @THREADS_AT_FAULT
> qXfer:threads:read::0,ffb
< @THREADS_AT_FAULT
> Hg1
< OK
> g
< 000000001400000000840000000000000000000000800000000000000000000000000000000000000000000000000000000000000000000001\
    0000001200000000000000000000000000000000000000000000000000000000000000000000000000000000000000000000000000000000\
    000000000000000000000000000000540000000d00000038000000
> Hg2
< OK
> m1098,4
< f0ffff7f
> Hc0
< OK
> bs
< T05thread:2;
> g
< 000000001400000000880000000000000000000000800000000000000000000000000000000000000100000000000000000000000000000000\
    1000000010000000000000000000000000000000000000000000000000000000000000000000000000000000000000000000000000000000\
    0000000000000000000000000000002c0000000a0000000b000000
> qXfer:threads:read::0,ffb
< l<?xml version=\"1.0\"?><threads><thread id=\"1\" core=\"0\" name=\"core 0\">retired 13 of 56</thread><thread id=\
    \"2\" core=\"1\" name=\"core 1\">retired 10 of 11</thread></threads>
> m0,40
< 1311a500b78200003301510013010140ef0080007300000063040502371700008327470ae38e07feb717000083a7870903a70700b717000023\
    a0e70a67800000
> m1098,4
< f0ffff7f
> m1098,4
< f0ffff7f
> m1098,4
< f0ffff7f
> Z2,1098,4
< OK
> vCont;c
< T0bthread:2;
> g
< @REGISTERS_AT_FAULT
> qXfer:threads:read::0,ffb
< @THREADS_AT_FAULT
> z2,1098,4
< OK
> m1098,4
< f0ffff7f
> Z2,1098,4
< OK
> vCont;C0b:2;c
< T05thread:1;watch:1098;
> g
< 000000001400000000840000000000000000000000800000000000000000000000000000000000000000000000000000000000000000000000\
    1000009c10000000000000000000000000000000000000000000000000000000000000000000000000000000000000000000000000000000\
    000000000000000000000000000000640000003500000038000000
> m1098,4
< f0ffff7f
> z2,1098,4
< OK
> vCont;s:1
< T05thread:1;
> g
< 000000001400000000840000000000000000000000800000000000000000000000000000000000000000000000000000000000000000000000\
    1000009c10000000000000000000000000000000000000000000000000000000000000000000000000000000000000000000000000000000\
    000000000000000000000000000000680000003600000038000000
> m1098,4
< 9c100000
> qXfer:threads:read::0,ffb
< l<?xml version=\"1.0\"?><threads><thread id=\"1\" core=\"0\" name=\"core 0\">retired 54 of 56</thread><thread id=\
    \"2\" core=\"1\" name=\"core 1\">retired 11 of 11, address</thread></threads>
> D
< OK";
