//! Histories, each with the page that the definition gives of it.

use crate::pages::rows::ask_all;
use std::test::Fail;

/// No section, text below, a heading, and a table of contents. A section that has no heading is one all the same.
#[test]
fn draws_pages(rt: HostRuntime) -> Result<(), Fail> {
    let rows = r##"{:valid? true}
=>
<h1>{:valid? true}</h1>
</body>
</html>

Not valid: 1 < 2 | The input & this page differ | {:valid? false, :error "<>"}
=>
<h1>Not valid: 1 &lt; 2</h1>
<p class="notice">The input &amp; this page differ</p>
<details>
<summary>The line of the checker</summary>
<pre>{:valid? false, :error &quot;&lt;&gt;&quot;}</pre>
</details>
<legend>
</body>
</html>

Unknown |  | {:valid? :unknown}
=>
<h1>Unknown</h1>
<details>
<summary>The line of the checker</summary>
<pre>{:valid? :unknown}</pre>
</details>
<legend>
</body>
</html>

{:valid? :unknown}
what stands <below>,
in two lines
=>
<h1>{:valid? :unknown}</h1>
<pre>what stands &lt;below&gt;,
in two lines</pre>
</body>
</html>

{:valid? true}
#
0 0
=>
<h1>{:valid? true}</h1>
<section>
<p id="part-0">All 0 records.</p>
<ol class="lanes">
</ol>
<div class="picture">
<svg xmlns="http://www.w3.org/2000/svg" width="0" height="0" viewBox="240 0 0 0">
<g class="marks">
</g>
</svg>
</div>
</section>
</body>
</html>

{:valid? true}
# a heading
0 2; 0 placed 0
{:index 40, :type :invoke, :process 0, :f :write, :value 5}
{:index 41, :type :ok, :process 0, :f :write, :value 5}
=>
<h1>{:valid? true}</h1>
<section>
<h2 id="part-0">a heading</h2>
<p>All 2 records.</p>
<ol class="lanes">
<li>process 0</li>
</ol>
<div class="picture">
<svg xmlns="http://www.w3.org/2000/svg" width="240" height="32" viewBox="240 0 240 32">
<svg class="ok" x="240" y="0" width="232" height="32"><rect width="100%" height="100%"/><title>{:index 40, :type :invoke, :process 0, :f :write, :value 5}
{:index 41, :type :ok, :process 0, :f :write, :value 5}</title><text x="4" y="12">&#10003; write 5</text></svg>
<g class="marks">
<svg class="placed" x="240" y="0" width="232" height="32"><rect width="100%" height="100%"/><title>number 0 in the order that was found
operation 0, at index 40 to 41</title><text x="228" y="12">0</text></svg>
</g>
</svg>
</div>
</section>
</body>
</html>

{:valid? false}
"a" & 'b'
# "k1" <&>
0 2
{:type :invoke, :process 0, :f :read, :value nil}
{:type :ok, :process 0, :f :read, :value 7}
#
0 2; 0 stuck
{:type :invoke, :process 1, :f :read, :value nil}
{:type :fail, :process 1, :f :read, :value nil}
# :k3
0 0
=>
<h1>{:valid? false}</h1>
<ul>
<li><a href="#part-0">&quot;k1&quot; &lt;&amp;&gt;</a></li>
<li><a href="#part-1"></a></li>
<li><a href="#part-2">:k3</a></li>
</ul>
<section>
<h2 id="part-0">&quot;k1&quot; &lt;&amp;&gt;</h2>
<p>All 2 records.</p>
<ol class="lanes">
<li>process 0</li>
</ol>
<div class="picture">
<svg xmlns="http://www.w3.org/2000/svg" width="240" height="32" viewBox="240 0 240 32">
<svg class="ok" x="240" y="0" width="232" height="32"><rect width="100%" height="100%"/><title>{:type :invoke, :process 0, :f :read, :value nil}
{:type :ok, :process 0, :f :read, :value 7}</title><text x="4" y="12">&#10003; read 7</text></svg>
<g class="marks">
</g>
</svg>
</div>
</section>
<section>
<p id="part-1">All 2 records.</p>
<p><a href="#found-1-0">Go to what was found</a></p>
<ol class="lanes">
<li>process 1</li>
</ol>
<div class="picture">
<svg xmlns="http://www.w3.org/2000/svg" width="240" height="32" viewBox="240 0 240 32">
<svg class="fail" x="240" y="0" width="232" height="32"><rect width="100%" height="100%"/><title>{:type :invoke, :process 1, :f :read, :value nil}
{:type :fail, :process 1, :f :read, :value nil}</title><text x="4" y="12">&#10007; read</text></svg>
<g class="marks">
<svg class="stuck" id="found-1-0" x="240" y="0" width="232" height="32"><rect width="100%" height="100%"/><title>stuck: no order has room for this operation
operation 0, at index 0 to 1</title><text x="228" y="12">stuck</text></svg>
</g>
</svg>
</div>
</section>
<section>
<h2 id="part-2">:k3</h2>
<p>All 0 records.</p>
<ol class="lanes">
</ol>
<div class="picture">
<svg xmlns="http://www.w3.org/2000/svg" width="0" height="0" viewBox="240 0 0 0">
<g class="marks">
</g>
</svg>
</div>
</section>
<pre>&quot;a&quot; &amp; &#39;b&#39;</pre>
</body>
</html>"##;
    ask_all(rt.alloc(), rows)
}

/// An operation that happened, and one that failed beside one of unknown outcome; labels of 18 characters and of more; answers of nil and of nothing.
#[test]
fn draws_operations(rt: HostRuntime) -> Result<(), Fail> {
    let rows = r##"{:valid? true}
#
0 6
{:type :invoke, :process 0, :f :read, :value nil}
{:type :ok, :process 0, :f :read, :value nil}
{:type :invoke, :process 0, :f :read, :value nil}
{:type :ok, :process 0, :f :read, :value #{}}
{:type :invoke, :process 0, :f :read, :value nil}
{:type :ok, :process 0, :f :read, :value ()}
=>
<h1>{:valid? true}</h1>
<section>
<p id="part-0">All 6 records.</p>
<ol class="lanes">
<li>process 0</li>
</ol>
<div class="picture">
<svg xmlns="http://www.w3.org/2000/svg" width="240" height="96" viewBox="240 0 240 96">
<svg class="ok" x="240" y="0" width="232" height="32"><rect width="100%" height="100%"/><title>{:type :invoke, :process 0, :f :read, :value nil}
{:type :ok, :process 0, :f :read, :value nil}</title><text x="4" y="12">&#10003; read nil</text></svg>
<svg class="ok" x="240" y="32" width="232" height="32"><rect width="100%" height="100%"/><title>{:type :invoke, :process 0, :f :read, :value nil}
{:type :ok, :process 0, :f :read, :value #{}}</title><text x="4" y="12">&#10003; read #{}</text></svg>
<svg class="ok" x="240" y="64" width="232" height="32"><rect width="100%" height="100%"/><title>{:type :invoke, :process 0, :f :read, :value nil}
{:type :ok, :process 0, :f :read, :value ()}</title><text x="4" y="12">&#10003; read ()</text></svg>
<g class="marks">
</g>
</svg>
</div>
</section>
</body>
</html>

{:valid? true}
#
0 2; 0 placed 0
{:type :invoke, :process 0, :f :write, :value 5}
{:type :ok, :process 0, :f :write, :value 5}
=>
<h1>{:valid? true}</h1>
<section>
<p id="part-0">All 2 records.</p>
<ol class="lanes">
<li>process 0</li>
</ol>
<div class="picture">
<svg xmlns="http://www.w3.org/2000/svg" width="240" height="32" viewBox="240 0 240 32">
<svg class="ok" x="240" y="0" width="232" height="32"><rect width="100%" height="100%"/><title>{:type :invoke, :process 0, :f :write, :value 5}
{:type :ok, :process 0, :f :write, :value 5}</title><text x="4" y="12">&#10003; write 5</text></svg>
<g class="marks">
<svg class="placed" x="240" y="0" width="232" height="32"><rect width="100%" height="100%"/><title>number 0 in the order that was found
operation 0, at index 0 to 1</title><text x="228" y="12">0</text></svg>
</g>
</svg>
</div>
</section>
</body>
</html>

{:valid? false}
#
0 4
{:type :invoke, :process 0, :f :cas, :value [0 1]}
{:type :invoke, :process 1, :f :write, :value 2}
{:type :fail, :process 0, :f :cas, :value [0 1]}
{:type :info, :process 1, :f :write, :value 2}
=>
<h1>{:valid? false}</h1>
<section>
<p id="part-0">All 4 records.</p>
<ol class="lanes">
<li>process 0</li>
<li>process 1</li>
</ol>
<div class="picture">
<svg xmlns="http://www.w3.org/2000/svg" width="480" height="64" viewBox="240 0 480 64">
<path class="tail" d="M596 64V64"/>
<svg class="fail" x="240" y="0" width="232" height="48"><rect width="100%" height="100%"/><title>{:type :invoke, :process 0, :f :cas, :value [0 1]}
{:type :fail, :process 0, :f :cas, :value [0 1]}</title><text x="4" y="12">&#10007; cas [0 1]</text></svg>
<svg class="info" x="480" y="16" width="232" height="48"><rect width="100%" height="100%"/><title>{:type :invoke, :process 1, :f :write, :value 2}
{:type :info, :process 1, :f :write, :value 2}</title><text x="4" y="12">? write 2</text></svg>
<g class="marks">
</g>
</svg>
</div>
</section>
</body>
</html>

{:valid? true}
#
0 6
{:type :invoke, :process 0, :f :read, :value nil}
{:type :ok, :process 0, :f :read, :value [0 1 2 3 4 5]}
{:type :invoke, :process 0, :f :read, :value nil}
{:type :ok, :process 0, :f :read, :value [0 1 2 3 4 5 17]}
{:type :invoke, :process 0, :f :add, :value "aaaaaaaaaaaa&b"}
{:type :info, :process 0, :f :add, :value "aaaaaaaaaaaa&b"}
=>
<h1>{:valid? true}</h1>
<section>
<p id="part-0">All 6 records.</p>
<ol class="lanes">
<li>process 0</li>
</ol>
<div class="picture">
<svg xmlns="http://www.w3.org/2000/svg" width="240" height="96" viewBox="240 0 240 96">
<path class="tail" d="M356 96V96"/>
<svg class="ok" x="240" y="0" width="232" height="32"><rect width="100%" height="100%"/><title>{:type :invoke, :process 0, :f :read, :value nil}
{:type :ok, :process 0, :f :read, :value [0 1 2 3 4 5]}</title><text x="4" y="12">&#10003; read [0 1 2 3 4 5]</text></svg>
<svg class="ok" x="240" y="32" width="232" height="32"><rect width="100%" height="100%"/><title>{:type :invoke, :process 0, :f :read, :value nil}
{:type :ok, :process 0, :f :read, :value [0 1 2 3 4 5 17]}</title><text x="4" y="12">&#10003; read [0 1 2 3 4 5 &#8230;</text></svg>
<svg class="info" x="240" y="64" width="232" height="32"><rect width="100%" height="100%"/><title>{:type :invoke, :process 0, :f :add, :value &quot;aaaaaaaaaaaa&amp;b&quot;}
{:type :info, :process 0, :f :add, :value &quot;aaaaaaaaaaaa&amp;b&quot;}</title><text x="4" y="12">? add &quot;aaaaaaaaaaaa&amp;&#8230;</text></svg>
<g class="marks">
</g>
</svg>
</div>
</section>
</body>
</html>"##;
    ask_all(rt.alloc(), rows)
}

/// A crashed process' lane is taken again, by one that its label names. The nemesis has lines.
#[test]
fn draws_lanes_and_faults(rt: HostRuntime) -> Result<(), Fail> {
    let rows = r##"{:valid? true}
#
0 7
{:type :invoke, :process 0, :f :read, :value nil}
{:type :invoke, :process 1, :f :add, :value 7}
{:type :info, :process 0, :f :read, :value nil}
{:type :invoke, :process 4, :f :read, :value nil}
{:type :ok, :process 1, :f :add, :value 7}
{:type :ok, :process 4, :f :read, :value 3}
{:type :invoke, :process 1, :f :add, :value 8}
=>
<h1>{:valid? true}</h1>
<section>
<p id="part-0">All 7 records.</p>
<ol class="lanes">
<li>process 0 4</li>
<li>process 1</li>
</ol>
<div class="picture">
<svg xmlns="http://www.w3.org/2000/svg" width="480" height="112" viewBox="240 0 480 112">
<path class="tail" d="M356 48V112"/>
<path class="tail" d="M596 112V112"/>
<svg class="info" x="240" y="0" width="232" height="48"><rect width="100%" height="100%"/><title>{:type :invoke, :process 0, :f :read, :value nil}
{:type :info, :process 0, :f :read, :value nil}</title><text x="4" y="12">? read</text></svg>
<svg class="ok" x="480" y="16" width="232" height="64"><rect width="100%" height="100%"/><title>{:type :invoke, :process 1, :f :add, :value 7}
{:type :ok, :process 1, :f :add, :value 7}</title><text x="4" y="12">&#10003; add 7</text></svg>
<svg class="ok" x="240" y="48" width="232" height="48"><rect width="100%" height="100%"/><title>{:type :invoke, :process 4, :f :read, :value nil}
{:type :ok, :process 4, :f :read, :value 3}</title><text x="4" y="12">&#10003; 4: read 3</text></svg>
<svg class="open" x="480" y="96" width="232" height="16"><rect width="100%" height="100%"/><title>{:type :invoke, :process 1, :f :add, :value 8}</title><text x="4" y="12">&#8230; add 8</text></svg>
<g class="marks">
</g>
</svg>
</div>
</section>
</body>
</html>

{:valid? true}
#
0 4
{:type :info, :process :nemesis, :f :start, :value ["n1" "n2"]}
{:type :invoke, :process 0, :f :write, :value 1}
{:type :info, :process :nemesis, :f :stop, :value nil}
{:type :ok, :process 0, :f :write, :value 1}
=>
<h1>{:valid? true}</h1>
<section>
<p id="part-0">All 4 records.</p>
<ol class="lanes">
<li>process 0</li>
</ol>
<div class="picture">
<svg xmlns="http://www.w3.org/2000/svg" width="480" height="64" viewBox="0 0 480 64">
<svg class="fault" y="0" width="100%" height="16"><line x2="100%"/><title>{:type :info, :process :nemesis, :f :start, :value [&quot;n1&quot; &quot;n2&quot;]}</title><text x="4" y="12">start [&quot;n1&quot; &quot;n2&quot;]</text></svg>
<svg class="fault" y="32" width="100%" height="16"><line x2="100%"/><title>{:type :info, :process :nemesis, :f :stop, :value nil}</title><text x="4" y="12">stop</text></svg>
<svg class="ok" x="240" y="16" width="232" height="48"><rect width="100%" height="100%"/><title>{:type :invoke, :process 0, :f :write, :value 1}
{:type :ok, :process 0, :f :write, :value 1}</title><text x="4" y="12">&#10003; write 1</text></svg>
<g class="marks">
</g>
</svg>
</div>
</section>
</body>
</html>"##;
    ask_all(rt.alloc(), rows)
}

/// Windows that cut bars at both ends, of nothing, and beyond the last record.
#[test]
fn cuts_at_a_window(rt: HostRuntime) -> Result<(), Fail> {
    let rows = r##"{:valid? true}
#
1 4
{:type :invoke, :process 0, :f :read, :value nil}
{:type :invoke, :process 1, :f :add, :value 7}
{:type :info, :process 0, :f :read, :value nil}
{:type :invoke, :process 4, :f :read, :value nil}
{:type :ok, :process 1, :f :add, :value 7}
{:type :ok, :process 4, :f :read, :value 3}
{:type :invoke, :process 1, :f :add, :value 8}
=>
<h1>{:valid? true}</h1>
<section>
<p id="part-0">Records 1 to 3 of 7; --from and --to choose others.</p>
<p>1 operation of unknown outcome began before and is not drawn.</p>
<ol class="lanes">
<li>process 1</li>
<li>process 4</li>
</ol>
<div class="picture">
<svg xmlns="http://www.w3.org/2000/svg" width="480" height="48" viewBox="240 0 480 48">
<svg class="ok" x="240" y="0" width="232" height="48"><rect width="100%" height="100%"/><title>{:type :invoke, :process 1, :f :add, :value 7}
{:type :ok, :process 1, :f :add, :value 7}</title><text x="4" y="12">&#10003; add 7</text></svg>
<svg class="ok" x="480" y="32" width="232" height="16"><rect width="100%" height="100%"/><title>{:type :invoke, :process 4, :f :read, :value nil}
{:type :ok, :process 4, :f :read, :value 3}</title><text x="4" y="12">&#10003; read 3</text></svg>
<g class="marks">
</g>
</svg>
</div>
</section>
</body>
</html>

{:valid? true}
#
2 2
{:type :info, :process :nemesis, :f :start, :value ["n1" "n2"]}
{:type :invoke, :process 0, :f :write, :value 1}
{:type :info, :process :nemesis, :f :stop, :value nil}
{:type :ok, :process 0, :f :write, :value 1}
=>
<h1>{:valid? true}</h1>
<section>
<p id="part-0">No record of 4; --from and --to choose others.</p>
<ol class="lanes">
</ol>
<div class="picture">
<svg xmlns="http://www.w3.org/2000/svg" width="0" height="0" viewBox="240 0 0 0">
<g class="marks">
</g>
</svg>
</div>
</section>
</body>
</html>

{:valid? true}
#
2 9; 0 stuck; 1 pending; 2 lost
{:type :invoke, :process 0, :f :read, :value nil}
{:type :invoke, :process 1, :f :add, :value 7}
{:type :info, :process 0, :f :read, :value nil}
{:type :invoke, :process 4, :f :read, :value nil}
{:type :ok, :process 1, :f :add, :value 7}
{:type :ok, :process 4, :f :read, :value 3}
{:type :invoke, :process 1, :f :add, :value 8}
=>
<h1>{:valid? true}</h1>
<section>
<p id="part-0">Records 2 to 6 of 7; --from and --to choose others.</p>
<p>1 operation of unknown outcome began before and is not drawn.</p>
<p><a href="#found-0-0">Go to what was found</a></p>
<ol class="lanes">
<li>process 1</li>
<li>process 4</li>
</ol>
<div class="picture">
<svg xmlns="http://www.w3.org/2000/svg" width="480" height="80" viewBox="240 0 480 80">
<path class="tail" d="M356 80V80"/>
<svg class="ok" x="240" y="0" width="232" height="48"><rect width="100%" height="100%"/><title>{:type :invoke, :process 1, :f :add, :value 7}
{:type :ok, :process 1, :f :add, :value 7}</title><text x="4" y="12">&#10003; add 7</text></svg>
<svg class="ok" x="480" y="16" width="232" height="48"><rect width="100%" height="100%"/><title>{:type :invoke, :process 4, :f :read, :value nil}
{:type :ok, :process 4, :f :read, :value 3}</title><text x="4" y="12">&#10003; read 3</text></svg>
<svg class="open" x="240" y="64" width="232" height="16"><rect width="100%" height="100%"/><title>{:type :invoke, :process 1, :f :add, :value 8}</title><text x="4" y="12">&#8230; add 8</text></svg>
<g class="marks">
<svg class="stuck" id="found-0-0" x="240" y="0" width="232" height="48"><rect width="100%" height="100%"/><title>stuck: no order has room for this operation
operation 1, at index 1 to 4</title><text x="228" y="12">stuck</text></svg>
<svg class="pending" x="480" y="16" width="232" height="48"><rect width="100%" height="100%"/><title>pending: it was not over where the history is stuck
operation 2, at index 3 to 5</title><text x="228" y="12">pending</text></svg>
<svg class="lost" id="found-0-2" x="240" y="64" width="232" height="16"><rect width="100%" height="100%"/><title>lost: it was added, and it is missing
operation 3, at index 6</title><text x="228" y="12">lost</text></svg>
</g>
</svg>
</div>
</section>
</body>
</html>

{:valid? true}
#
0 1
{:type :invoke, :process 0, :f :add, :value 1}
{:type :ok, :process 0, :f :add, :value 1}
# behind the end
5 9
{:type :invoke, :process 0, :f :add, :value 1}
{:type :ok, :process 0, :f :add, :value 1}
# the last
1 9
{:type :invoke, :process 0, :f :add, :value 1}
{:type :ok, :process 0, :f :add, :value 1}
=>
<h1>{:valid? true}</h1>
<ul>
<li><a href="#part-0"></a></li>
<li><a href="#part-1">behind the end</a></li>
<li><a href="#part-2">the last</a></li>
</ul>
<section>
<p id="part-0">Records 0 to 0 of 2; --from and --to choose others.</p>
<ol class="lanes">
<li>process 0</li>
</ol>
<div class="picture">
<svg xmlns="http://www.w3.org/2000/svg" width="240" height="16" viewBox="240 0 240 16">
<svg class="ok" x="240" y="0" width="232" height="16"><rect width="100%" height="100%"/><title>{:type :invoke, :process 0, :f :add, :value 1}
{:type :ok, :process 0, :f :add, :value 1}</title><text x="4" y="12">&#10003; add 1</text></svg>
<g class="marks">
</g>
</svg>
</div>
</section>
<section>
<h2 id="part-1">behind the end</h2>
<p>No record of 2; --from and --to choose others.</p>
<ol class="lanes">
</ol>
<div class="picture">
<svg xmlns="http://www.w3.org/2000/svg" width="0" height="0" viewBox="240 0 0 0">
<g class="marks">
</g>
</svg>
</div>
</section>
<section>
<h2 id="part-2">the last</h2>
<p>Records 1 to 1 of 2; --from and --to choose others.</p>
<ol class="lanes">
<li>process 0</li>
</ol>
<div class="picture">
<svg xmlns="http://www.w3.org/2000/svg" width="240" height="16" viewBox="240 0 240 16">
<svg class="ok" x="240" y="0" width="232" height="16"><rect width="100%" height="100%"/><title>{:type :invoke, :process 0, :f :add, :value 1}
{:type :ok, :process 0, :f :add, :value 1}</title><text x="4" y="12">&#10003; add 1</text></svg>
<g class="marks">
</g>
</svg>
</div>
</section>
</body>
</html>"##;
    ask_all(rt.alloc(), rows)
}

/// A step in words, the shade of its fault, times, how long an operation took, and a second completion.
#[test]
fn draws_steps_and_times(rt: HostRuntime) -> Result<(), Fail> {
    let rows = r##"A history
#
0 5
{:type :invoke, :process 0, :f :read, :value nil, :time 1500000}
{:type :info, :process :nemesis, :f :step, :value 0, :step [:begin 1 [:kill ["n1"]]]}
{:type :info, :process :nemesis, :f :step, :value [0 0], :time -1}
{:type :ok, :process 0, :f :read, :value 3, :time 3001000}
{:type :ok, :process 0, :f :read, :value 4, :time 3001000}
=>
<h1>A history</h1>
<section>
<p id="part-0">All 5 records.</p>
<ol class="lanes">
<li>process 0</li>
</ol>
<div class="picture">
<svg xmlns="http://www.w3.org/2000/svg" width="560" height="80" viewBox="0 0 560 80">
<svg class="band" y="32" width="100%" height="48"><rect width="100%" height="100%"/><title>1: kill n1</title><text x="236" y="28">1: kill n1</text></svg>
<text class="time" x="312" y="12">0.001</text>
<text class="time" x="312" y="44">-0.000</text>
<text class="time" x="312" y="60">0.003</text>
<text class="time" x="312" y="76">0.003</text>
<svg class="fault" y="16" width="100%" height="16"><line x2="100%"/><title>{:type :info, :process :nemesis, :f :step, :value 0, :step [:begin 1 [:kill [&quot;n1&quot;]]]}</title><text x="4" y="12">begin 1: kill n1</text></svg>
<svg class="fault" y="32" width="100%" height="16"><line x2="100%"/><title>{:time -1, :type :info, :process :nemesis, :f :step, :value [0 0]}</title><text x="4" y="12">begin 1: kill n1: done</text></svg>
<svg class="ok" x="320" y="0" width="232" height="64"><rect width="100%" height="100%"/><title>{:time 1500000, :type :invoke, :process 0, :f :read, :value nil}
{:time 3001000, :type :ok, :process 0, :f :read, :value 3}
took 1.501 ms</title><text x="4" y="12">&#10003; read 3</text></svg>
<svg class="alone ok" x="320" y="64" width="232" height="16"><rect width="100%" height="100%"/><title>{:time 3001000, :type :ok, :process 0, :f :read, :value 4}</title><text x="4" y="12">&#8627; &#10003; read 4</text></svg>
<g class="marks">
</g>
</svg>
</div>
</section>
</body>
</html>"##;
    ask_all(rt.alloc(), rows)
}

/// Each kind of mark, and a mark at a bar that is not there.
#[test]
fn marks_bars(rt: HostRuntime) -> Result<(), Fail> {
    let rows = r##"{:valid? false}
#
0 4; 0 placed 12 -5; 1 stuck; 0 pending; 1 lost; 0 recovered; 1 unexpected; 0 repeated; 1 outside -3 170141183460469231731687303715884105727; 0 pending 0; 1 pending 18446744073709551615 9223372036854775807; 0 rw 3; 1 fcw 0; 0 wr 1; 1 ww 2; 0 rt 4; 1 bad-read; 2 stuck
{:type :invoke, :process 0, :f :read, :value nil}
{:type :invoke, :process 1, :f :read, :value nil}
{:type :ok, :process 0, :f :read, :value 3}
{:type :ok, :process 1, :f :read, :value 4}
=>
<h1>{:valid? false}</h1>
<section>
<p id="part-0">All 4 records.</p>
<p><a href="#found-0-1">Go to what was found</a></p>
<ol class="lanes">
<li>process 0</li>
<li>process 1</li>
</ol>
<div class="picture">
<svg xmlns="http://www.w3.org/2000/svg" width="480" height="64" viewBox="240 0 480 64">
<svg class="ok" x="240" y="0" width="232" height="48"><rect width="100%" height="100%"/><title>{:type :invoke, :process 0, :f :read, :value nil}
{:type :ok, :process 0, :f :read, :value 3}</title><text x="4" y="12">&#10003; read 3</text></svg>
<svg class="ok" x="480" y="16" width="232" height="48"><rect width="100%" height="100%"/><title>{:type :invoke, :process 1, :f :read, :value nil}
{:type :ok, :process 1, :f :read, :value 4}</title><text x="4" y="12">&#10003; read 4</text></svg>
<g class="marks">
<svg class="placed" x="240" y="0" width="232" height="48"><rect width="100%" height="100%"/><title>number 12 in the order that was found; the register then holds -5
operation 0, at index 0 to 2</title><text x="228" y="12">12</text></svg>
<svg class="stuck" id="found-0-1" x="480" y="16" width="232" height="48"><rect width="100%" height="100%"/><title>stuck: no order has room for this operation
operation 1, at index 1 to 3</title><text x="228" y="12">stuck</text></svg>
<svg class="pending" x="240" y="0" width="232" height="48"><rect width="100%" height="100%"/><title>pending: it was not over where the history is stuck
operation 0, at index 0 to 2</title><text x="228" y="12">pending</text></svg>
<svg class="lost" id="found-0-1" x="480" y="16" width="232" height="48"><rect width="100%" height="100%"/><title>lost: it was added, and it is missing
operation 1, at index 1 to 3</title><text x="228" y="12">lost</text></svg>
<svg class="recovered" id="found-0-0" x="240" y="0" width="232" height="48"><rect width="100%" height="100%"/><title>recovered: it is there, and it was not known to be added
operation 0, at index 0 to 2</title><text x="228" y="12">recovered</text></svg>
<svg class="unexpected" id="found-0-1" x="480" y="16" width="232" height="48"><rect width="100%" height="100%"/><title>unexpected: this gives what no add explains
operation 1, at index 1 to 3</title><text x="228" y="12">unexpected</text></svg>
<svg class="repeated" id="found-0-0" x="240" y="0" width="232" height="48"><rect width="100%" height="100%"/><title>repeated: this gives what was given more than once
operation 0, at index 0 to 2</title><text x="228" y="12">repeated</text></svg>
<svg class="outside" id="found-0-1" x="480" y="16" width="232" height="48"><rect width="100%" height="100%"/><title>outside its bounds: -3 to 170141183460469231731687303715884105727
operation 1, at index 1 to 3</title><text x="228" y="12">[-3 170141183460469231731687303715884105727]</text></svg>
<svg class="pending" x="240" y="0" width="232" height="48"><rect width="100%" height="100%"/><title>pending: it was not over where the history is stuck; number 0 in the order that was found
operation 0, at index 0 to 2</title><text x="228" y="12">pending 0</text></svg>
<svg class="pending" x="480" y="16" width="232" height="48"><rect width="100%" height="100%"/><title>pending: it was not over where the history is stuck; number 18446744073709551615 in the order that was found; the register then holds 9223372036854775807
operation 1, at index 1 to 3</title><text x="228" y="12">pending 18446744073709551615</text></svg>
<svg class="step" id="found-0-0" x="240" y="0" width="232" height="48"><rect width="100%" height="100%"/><title>transaction 3, with its step to the next one of the cycle
operation 0, at index 0 to 2</title><text x="228" y="12">3 :rw</text></svg>
<svg class="step" id="found-0-1" x="480" y="16" width="232" height="48"><rect width="100%" height="100%"/><title>transaction 0, with its step to the next one of the cycle
operation 1, at index 1 to 3</title><text x="228" y="12">0 :fcw</text></svg>
<svg class="step" id="found-0-0" x="240" y="0" width="232" height="48"><rect width="100%" height="100%"/><title>transaction 1, with its step to the next one of the cycle
operation 0, at index 0 to 2</title><text x="228" y="12">1 :wr</text></svg>
<svg class="step" id="found-0-1" x="480" y="16" width="232" height="48"><rect width="100%" height="100%"/><title>transaction 2, with its step to the next one of the cycle
operation 1, at index 1 to 3</title><text x="228" y="12">2 :ww</text></svg>
<svg class="step" id="found-0-0" x="240" y="0" width="232" height="48"><rect width="100%" height="100%"/><title>transaction 4, with its step to the next one of the cycle
operation 0, at index 0 to 2</title><text x="228" y="12">4 :rt</text></svg>
<svg class="bad-read" id="found-0-1" x="480" y="16" width="232" height="48"><rect width="100%" height="100%"/><title>bad read: no order explains it
operation 1, at index 1 to 3</title><text x="228" y="12">bad read</text></svg>
</g>
</svg>
</div>
</section>
</body>
</html>"##;
    ask_all(rt.alloc(), rows)
}

/// Each character that has to be escaped, wherever a page may have it.
#[test]
fn escapes_what_histories_say(rt: HostRuntime) -> Result<(), Fail> {
    let rows = "{:error \"<&>'\"}
\"<&>'\u{a0}
\u{1}\u{9}
#\"\u{7}<&>'\"
0 3; 0 placed 1
{:type :invoke, :process 0, :f :write, :value \"<a href='b'>&amp;\\\"\\\\\"}
{:type :info, :process :nemesis, :f :<&>, :value \"<!-- \u{1}\u{1f}\u{7f}\u{80}\u{9f}\u{a0}\u{fffe}\u{ffff}\u{10000}\"}
{:type :ok, :process 0, :f :write, :value (\"]]>\" :a&b)}
#'
0 0
=>
<h1>{:error &quot;&lt;&amp;&gt;&#39;&quot;}</h1>
<ul>
<li><a href=\"#part-0\">&quot;\\u{7}&lt;&amp;&gt;&#39;&quot;</a></li>
<li><a href=\"#part-1\">&#39;</a></li>
</ul>
<section>
<h2 id=\"part-0\">&quot;\\u{7}&lt;&amp;&gt;&#39;&quot;</h2>
<p>All 3 records.</p>
<ol class=\"lanes\">
<li>process 0</li>
</ol>
<div class=\"picture\">
<svg xmlns=\"http://www.w3.org/2000/svg\" width=\"480\" height=\"48\" viewBox=\"0 0 480 48\">
<svg class=\"fault\" y=\"16\" width=\"100%\" height=\"16\"><line x2=\"100%\"/><title>{:type :info, :process :nemesis, :f :&lt;&amp;&gt;, :value &quot;&lt;!-- \\u{1}\\u{1f}\\u{7f}\\u{80}\\u{9f}\u{a0}\\u{fffe}\\u{ffff}\u{10000}&quot;}</title><text x=\"4\" y=\"12\">&lt;&amp;&gt; &quot;&lt;!-- \\u{1}\\u{1f}\\u{7f}\\u{80}\\u{9f}\u{a0}\\u{fffe}\\u{ffff}\u{10000}&quot;</text></svg>
<svg class=\"ok\" x=\"240\" y=\"0\" width=\"232\" height=\"48\"><rect width=\"100%\" height=\"100%\"/><title>{:type :invoke, :process 0, :f :write, :value &quot;&lt;a href=&#39;b&#39;&gt;&amp;amp;\\&quot;\\\\&quot;}
{:type :ok, :process 0, :f :write, :value (&quot;]]&gt;&quot; :a&amp;b)}</title><text x=\"4\" y=\"12\">&#10003; write (&quot;]]&gt;&quot; :a&amp;b)</text></svg>
<g class=\"marks\">
<svg class=\"placed\" x=\"240\" y=\"0\" width=\"232\" height=\"48\"><rect width=\"100%\" height=\"100%\"/><title>number 1 in the order that was found
operation 0, at index 0 to 2</title><text x=\"228\" y=\"12\">1</text></svg>
</g>
</svg>
</div>
</section>
<section>
<h2 id=\"part-1\">&#39;</h2>
<p>All 0 records.</p>
<ol class=\"lanes\">
</ol>
<div class=\"picture\">
<svg xmlns=\"http://www.w3.org/2000/svg\" width=\"0\" height=\"0\" viewBox=\"240 0 0 0\">
<g class=\"marks\">
</g>
</svg>
</div>
</section>
<pre>&quot;&lt;&amp;&gt;&#39;\u{a0}
\\u{1}\\u{9}</pre>
</body>
</html>";
    ask_all(rt.alloc(), rows)
}
