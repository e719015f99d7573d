//! What help says of the program and its commands.

pub(crate) const PROGRAM_ABOUT: &str = "\
Initializes classes of Java class files of version 52 (Java 8) ahead of time, writes images of them, and runs images and
class files.";

pub(crate) const STATUSES: &str = "\
Exit status:
  0  done: the image or the report is written, or all threads returned
  1  refused: a class file, the classes together, an image, a journal, an entry or an option; or an allocation failed
  2  the command line is wrong, or names one file for output and for input
  3  a file or standard output failed
  4  stuck: no thread can take a step, and one has not ended
  5  the limit was reached, and a thread can still take a step; or a replay came to the end of its journal, and a
     thread has not ended
  6  all threads ended, and not all of them returned; or 'audit' found something

A refusal is one line on standard error, 'preinit: ' and its name. With --verbose, after the command's name, a second
line says what it means.";

pub(crate) const BUILD_ABOUT: &str = "\
Writes an image of class files, in which classes are initialized already";

pub(crate) const BUILD_LONG_ABOUT: &str = "\
Writes an image of class files: runs the initializer of each class that can be initialized before the program runs,
alone and within a budget, and writes the classes and what these initializers left to a file. 'preinit report' shows
which classes these are, and why the others are not. A run from the image shows what a run of the class files shows.

Standard output gets nothing. The image is the same for any order of the class files and any number of workers. Where it
can't be written, the file is named as it was given: 'preinit: File app.img'. So is a class file of 2^32 bytes or more.
A number of workers outside 1 to 64 is refused: 'preinit: Wave Workers'.

With --report the report of this build is written, before the image, and with --page, before both, a page of HTML:
totals, pictures, and a table of all classes, each with what 'preinit explain all' shows of it. With --verbose standard
error gets a last line: how many classes there are, how many of them are initialized, with how many objects and bytes,
how many are left by each reason, and how much time and memory the build took:
  classes 9 built 6 objects 41 bytes 2034 left 3 Prints 1 DependsOn 2; 0.08 s, at most 14 MB

For example: preinit build --out app.img app/Main.class app/Table.class";

pub(crate) const LAZY_ABOUT: &str = "\
Runs class files by turns, each class initialized when it is first needed";

pub(crate) const LAZY_LONG_ABOUT: &str = "\
Runs the main method of each entry class in a thread of its own, by turns: in each round every thread takes one step,
in the order of the list. A class is initialized when a thread first needs it.

Standard output gets what the program prints, while it runs. Then standard error gets a line for each thread:
  thread 0 returned             its main method returned
  thread 0 uncaught CLASS       it ended by an exception of this class
  thread 0 faulted KIND         it ended by a fault: Fault, Unsupported (the instruction is not implemented)
                                or Missing (a class or member is missing)
  thread 0 going                it has not ended: the run is stuck, or reached its limit

With --stacks the stacks of the threads that have not returned follow, innermost frame first, as
  thread 0 waits for the initialization of app/Table, which thread 1 has
  thread 0 at app/Table.fill(I)V 7 invokevirtual java/lang/String.length()I
  thread 0 in app/Table.<clinit>()V 3 invokestatic app/Table.fill(I)V
  thread 0 in initialization of app/Main
A line shows a method, a pc, and the instruction there with what it names. Of a thread that ended it is the stack before
its last step. Of a long stack the first and last 20 places are shown. To find them the run is made a second time.

With --verbose comes the first line of the stack of each thread that ended by a fault or an exception, for which the run
is made a second time, too; after a colon it says of a call that its method is synchronized or native, and of an 'ldc'
of a class what makes it. Where the limit ended the run, it says after how many steps.

A class file at fault is named by its index among the files, from 0, and an entry at fault by its index in the list.

For example: preinit lazy --entries app.Main app/Main.class app/Table.class";

pub(crate) const REPORT_ABOUT: &str = "\
Shows which classes can be initialized at build time, and why the others can't";

pub(crate) const REPORT_LONG_ABOUT: &str = "\
Builds in memory: runs the initializer of each class that can be initialized before the program runs, alone and within
a budget. A class can be where its code does nothing that another class or a user could see, and where all classes that
it uses are initialized before it. A report is about initializers alone: it says nothing of what other methods of a
class need when they run.

Standard output gets a line for each class, in the order of their names:
  app/Table build 0 12              initialized at build time, in wave 0; the image keeps 12 objects of it
  app/Main run Prints               initialized at run time, since its initializer may print
The other reasons: Forced (by an option), Throws, Monitors, ForeignWrite, ForeignRead (a field of another class that is
not final), Unsupported, Missing, Cycle, DependsOn CLASS (a class that it uses is initialized at run time), and of the
run of its initializer Raised (an exception, also one that is caught), ForeignObject (it looks into an object of
another class, at more than an array's length or an enum constant's name and ordinal), Budget and Faulted.

An option is refused as Empty and the index of an item, Unknown and the item, Both and a class that is requested for
both times, or Demanded and a class that can't be initialized at build time, with the reason.

With --page a page of HTML is written before: totals, pictures, and a table of all classes, each with what 'preinit
explain all' shows of it. It loads nothing from elsewhere.

With --verbose standard error gets what can be done about each reason that stands, and then the line on what the build
came to that 'preinit build' has.

For example: preinit report --initialize-at-run-time app.log app/Main.class app/Table.class";

pub(crate) const EXPLAIN_ABOUT: &str = "\
Shows every reason that a class has, and where it comes from";

pub(crate) const EXPLAIN_LONG_ABOUT: &str = "\
Builds in memory, as 'preinit report' does, and shows the report's line of one class, and then each reason why it is not
initialized at build time:
  app/Main run Prints
  app/Main Prints at app/Log.line()V 4 invokevirtual java/io/PrintStream.println()V
                                    an instruction that may print: its method, where it begins in the method's code
                                    in bytes, and what it names
  app/Main Prints in app/Main.<clinit>()V 2 invokestatic app/Log.line()V
                                    the call by which it is reached, and so on, up to the initializer
  app/Main DependsOn app/Table DependsOn app/Clock Unsupported
                                    it uses app/Table, which uses app/Clock, which has a reason of its own
and of one that is initialized at build time:
  app/Table cost 79 made 12 kept 10 bytes 640
                                    what its initializer cost, how many objects it made, how many of them the image
                                    keeps, and the bytes of its region

Of 'all' classes it shows the same without calls, without the instruction at which the run of an initializer ended, and
with the ends of such chains alone; then the ten classes because of which the most others are initialized at run time:
'12 depend on app/Clock'; and then what each class cost that is initialized at build time, the dearest first.

With --verbose standard error gets, of a class that is Unsupported, whether the method that is called is synchronized or
native, or that a class literal or assert makes an 'ldc' of a class.

For example: preinit explain app.Main app/Main.class app/Table.class";

pub(crate) const AUDIT_ABOUT: &str = "\
Reports before a run where its threads may need something that is not implemented or missing";

pub(crate) const AUDIT_LONG_ABOUT: &str = "\
Looks through the main methods of the entry classes, the initializers of all classes that these may need, and whatever
all of these may call, and reports each instruction there that ends its thread as Unsupported or Missing:
  Missing at app/Main.main([Ljava/lang/String;)V 5 invokevirtual java/lang/String.length()I
                                    its method, where it begins in the method's code in bytes, and what it names
A main method that can't be called is shown without an instruction. What depends on operands is not reported: the
monitor of a string or of System.out, an enum constant's null name, and a call that runs no method or an abstract one.

It assumes that a virtual call may run any method of its name and descriptor, so a run need not come to each place that
is reported. The status is 0 where there is none, and 6 otherwise.

With --verbose standard error gets, of each place that is Unsupported, whether the method that is called is synchronized
or native, or that a class literal or assert makes an 'ldc' of a class.

For example: preinit audit --entries app.Main app/Main.class app/Table.class";

pub(crate) const RENEW_ABOUT: &str = "\
Writes an image again, in the version that 'preinit build' writes";

pub(crate) const RENEW_LONG_ABOUT: &str = "\
Reads an image of version 1 or 2 and writes it in version 2, which leaves out the objects that no static field reaches.
A run from the new image shows what a run from the old one shows. An image of version 2 is written as it is.

Standard output gets nothing. Where the new image can't be written, the file is named as it was given: 'preinit: File
new.img'. A bad image is refused as by 'preinit run'.

For example: preinit renew --out new.img app.img";

pub(crate) const RUN_ABOUT: &str = "\
Runs an image that 'preinit build' wrote";

pub(crate) const RUN_LONG_ABOUT: &str = "\
Runs the main method of each entry class in a thread of its own, from an image: the classes that the image has
initialized are so from the start, with what their initializers left. Any other class is initialized when a thread first
needs it. Standard output and standard error get what 'preinit lazy' sends there.

With --turns every thread takes one step in each round, in the order of the list. Otherwise each is a thread of the
system, scheduled by it, and a run ends at most 1,023 steps after its limit. The journal has a line for each switch of
threads: the number of the thread that goes on, and how many steps it takes.

A bad image is refused as Truncated, Magic, Version, Digest, Class and a class file with its fault, Link, Order, Shape,
Name and Idle with a class, or Extra.

For example: preinit run --journal app.journal --entries app.Main,app.Other app.img";

pub(crate) const REPLAY_ABOUT: &str = "\
Runs an image by a journal that 'preinit run' wrote";

pub(crate) const REPLAY_LONG_ABOUT: &str = "\
Runs the main method of each entry class in a thread of its own, from an image, by the schedule of a journal. It shows
what the run that wrote the journal showed. A line of a journal is the number of a thread, one space and the number of
steps that it takes, in decimal without leading zeros.

A bad journal is refused as Text and the first line at fault, or Turn and the line of a thread that does not exist or
can't take a step, from 1. Of a Turn, lines of one thread that follow one another count as one, as in a journal that a
run wrote.

With --at it ends after so many steps of the journal, or at its end, and standard error gets the stacks of the threads
that have not returned, as with --stacks, and then what the innermost frame of each holds: its local variables and its
operands, the lowest first:
  thread 0 local 1 int 5
  thread 0 local 2 app/Table (3, made by app/Main)
  thread 0 operand 0 \"a string\"
An object is named by its class, its number and who made it.

For example: preinit replay --journal app.journal --entries app.Main,app.Other app.img";

pub(crate) const INSPECT_ABOUT: &str = "\
Says what an image holds: its version and digest, and of each class its objects and bytes";

pub(crate) const INSPECT_LONG_ABOUT: &str = "\
Reads an image, without running it, and writes to standard output its version, its digest in hexadecimal digits, the
totals, and then a line for each class, in the order of their names:
  version 2
  digest 4cf5a3..                   SHA-256 of all bytes before it
  classes 2 built 1 objects 12 bytes 640
  app/Main run                      initialized at run time
  app/Table build objects 12 bytes 640
                                    initialized in the image, which keeps 12 objects of it; its region, which is its
                                    static fields and these objects, takes 640 bytes of the image
  largest 640 app/Table             the ten classes with the most bytes, those with the most first

An image of version 1 is described as it would be written in version 2, but for its version and digest. What is wrong
with an image is reported as for 'preinit run'.

For example: preinit inspect app.img";
