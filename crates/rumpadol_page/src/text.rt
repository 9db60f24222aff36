//! The page and its content policy: made by scripts/page-text.py from page/page.html.

mod build;
mod document;
mod ends;
mod look;
mod message;
mod play;
mod server;
mod start;
mod style;
mod table;

/// The content policy of each answer.
pub(crate) const POLICY: &str =
    "default-src 'none'; style-src 'sha256-5ZZH0advz1qlE2wDEA/AscBKHx8ur3LiKStf+TwBsE0='; script-src 'sha256-iRwtQktXTidp2hNq31a+0589Hl00HMre7J0baFTup/I='; connect-src 'self'; base-uri 'none'; form-action 'none'; frame-ancestors 'none'";

/// The page, part by part.
pub(crate) const PAGE: &[&str] = &[
    "<!DOCTYPE html>
<html lang=\"en\">
<head>
<meta charset=\"utf-8\">
<meta name=\"viewport\" content=\"width=device-width, initial-scale=1\">
<title>rumpadol: card messages</title>
<style>
",
    style::TEXT,
    "</style>
</head>
<body>
<a class=\"skip\" href=\"#main\">Skip to the view</a>
<header>
  <div class=\"bar\">
    <div>
      <h1>rumpadol</h1>
      <p class=\"quiet small\">Card messages of ISO 8583, read and played on this machine.<br>Nothing leaves it, nothing is kept.</p>
    </div>
    <div class=\"bar drop\" id=\"tables\">
      <label>Table <select id=\"table\"><option>ascii87</option><option>bcd87</option></select></label>
      <label>or a document (choose or drop) <input type=\"file\" id=\"tableFile\" accept=\".json\"></label>
      <label><input type=\"checkbox\" role=\"switch\" id=\"clear\" autocomplete=\"off\"> <span>Show card data</span></label>
    </div>
  </div>
  <p id=\"tablesStatus\" class=\"status small\" role=\"status\"></p>
  <ul id=\"tableComplaints\" class=\"complaints small\"></ul>
  <div role=\"tablist\" aria-label=\"Views\">
    <button role=\"tab\" id=\"lookTab\" aria-controls=\"look\">Look</button>
    <button role=\"tab\" id=\"buildTab\" aria-controls=\"build\">Build</button>
    <button role=\"tab\" id=\"playTab\" aria-controls=\"play\">Play</button>
    <button role=\"tab\" id=\"endsTab\" aria-controls=\"ends\">Both ends</button>
  </div>
</header>
<main id=\"main\" tabindex=\"-1\">
<section id=\"look\" class=\"stack\" role=\"tabpanel\" aria-labelledby=\"lookTab\">
  <h2>Look at a message</h2>
  <div class=\"card two\">
    <div class=\"drop stack\" id=\"inputDrop\">
      <label>Message: hex digits, a hex dump, or text <textarea id=\"input\" rows=\"5\" spellcheck=\"false\"></textarea></label>
      <label>or a file (choose or drop) <input type=\"file\" id=\"inputFile\"></label>
    </div>
    <div class=\"stack\">
      <div class=\"fields\">
        <label>The input is
          <select id=\"kind\"><option value=\"hex\">hex or a dump</option><option value=\"text\">text as it is</option></select>
        </label>
        <label>Frames <select id=\"frames\"></select></label>
        <label>Bytes to skip <input type=\"number\" id=\"skip\" min=\"0\" value=\"0\"></label>
      </div>
      <div class=\"acts\">
        <button id=\"lookPurchase\">An example purchase</button> <button id=\"lookBroken\">One with a fault</button> <button id=\"lookEmpty\">Empty the field</button>
      </div>
    </div>
  </div>
  <p id=\"lookStatus\" class=\"status\" role=\"status\"></p>
  <ul id=\"lookComplaints\" class=\"complaints\"></ul>
  <div id=\"lookMessages\"></div>
  <div id=\"lookMessage\" class=\"stack\"></div>
</section>

<section id=\"build\" class=\"stack\" role=\"tabpanel\" aria-labelledby=\"buildTab\">
  <h2>Build a message</h2>
  <div class=\"acts\">
    <button id=\"buildTake\">Take the message from Look</button> <button id=\"buildPurchase\">An example purchase</button> <button id=\"buildEcho\">An example echo test</button>
  </div>
  <div class=\"card stack\">
    <div class=\"fields\">
      <label>Message type <input id=\"mti\" class=\"mono\" inputmode=\"numeric\" maxlength=\"4\" value=\"0800\" aria-describedby=\"mtiWrong\"></label>
      <label>Frame header <select id=\"buildFrames\"></select></label>
      <label>Element to add <select id=\"adding\"></select></label>
      <button id=\"add\">Add the element</button>
    </div>
    <p id=\"mtiWrong\" class=\"wrong small\"></p>
    <div id=\"elements\"></div>
  </div>
  <p id=\"buildStatus\" class=\"status\" role=\"status\"></p>
  <ul id=\"buildComplaints\" class=\"complaints\"></ul>
  <div class=\"card stack\">
    <div class=\"halves\">
      <label><span id=\"builtLabel\">Bytes in hex</span> <textarea id=\"built\" rows=\"4\" readonly></textarea></label>
      <label><span id=\"convertedLabel\">The same message</span> <textarea id=\"converted\" rows=\"4\" readonly></textarea></label>
      <div class=\"acts\">
        <button id=\"copyHex\">Copy as hex</button> <button id=\"copyJson\">Copy as JSON</button> <button id=\"download\">Download the bytes</button>
      </div>
      <div class=\"fields drop\" id=\"otherDrop\">
        <label>Other table <select id=\"other\"><option>ascii87</option><option selected>bcd87</option></select></label>
        <label>or a document <input type=\"file\" id=\"otherFile\" accept=\".json\"></label>
      </div>
    </div>
    <ul id=\"otherComplaints\" class=\"complaints\"></ul>
  </div>
  <div id=\"buildMessage\" class=\"stack\"></div>
</section>

<section id=\"play\" class=\"stack\" role=\"tabpanel\" aria-labelledby=\"playTab\">
  <h2>Play an issuer</h2>
  <div class=\"halves\">
    <div class=\"card stack\">
      <h3>The next message</h3>
      <div class=\"fields\">
        <label>What <select id=\"what\"></select></label>
        <label>Account <select id=\"account\"></select></label>
        <label>Amount, minor units <input type=\"number\" id=\"amount\" min=\"1\" value=\"1000\"></label>
        <label>Of which entry <select id=\"named\"></select></label>
      </div>
      <div class=\"acts\">
        <button id=\"quickSend\" class=\"chosen\">Build and send it</button> <button id=\"quickBuild\">Build it</button>
      </div>
      <p class=\"small\">Built: <span id=\"playBuilt\" class=\"mono\"></span></p>
      <div class=\"acts\">
        <button id=\"send\">Send the built message</button> <button id=\"loseRequest\">Lose the request</button> <button id=\"loseAnswer\">Lose the answer</button>
        <button id=\"again\">Send the last one again</button> <button id=\"takeBack\">Take back the last delivery</button> <button id=\"playOver\">Start over</button>
      </div>
    </div>
    <div class=\"card stack\">
      <div id=\"openings\"></div>
      <div class=\"acts\"><button id=\"addAccount\">Add an account</button></div>
      <h3>A day of frames</h3>
      <div class=\"fields drop\" id=\"dayDrop\">
        <label>Its header <select id=\"dayFrames\"></select></label>
        <label>File (choose or drop) <input type=\"file\" id=\"dayFile\"></label>
      </div>
      <div class=\"acts\">
        <button id=\"dayNext\">Next</button> <button id=\"dayAll\">Play all</button> <button id=\"dayBack\">Back</button> <span id=\"dayTold\" class=\"small quiet\"></span>
      </div>
    </div>
  </div>
  <p id=\"playStatus\" class=\"status\" role=\"status\"></p>
  <div class=\"halves\">
    <div class=\"card\" id=\"accounts\"></div>
    <div class=\"card\" id=\"deliveries\"></div>
  </div>
  <div class=\"card\" id=\"journal\"></div>
</section>

<section id=\"ends\" class=\"stack\" role=\"tabpanel\" aria-labelledby=\"endsTab\">
  <h2>Both ends, and what gets lost between them</h2>
  <div class=\"card acts\">
    <label>Opening at the issuer <input type=\"number\" id=\"opening\" value=\"5000\"></label>
    <label>Amount of the order <input type=\"number\" id=\"order\" min=\"1\" value=\"1000\" required></label>
    <button id=\"begin\" class=\"chosen\">Begin an order</button>
    <button id=\"endsUndo\">Undo the last event</button>
    <button id=\"endsOver\">Start over</button>
    <button id=\"endsExample\">Example: a lost answer</button>
  </div>
  <p id=\"endsStatus\" class=\"status\" role=\"status\"></p>
  <div class=\"three\">
    <div class=\"card\" id=\"traces\"></div>
    <div class=\"card\" id=\"sent\"></div>
    <div class=\"card\" id=\"given\"></div>
  </div>
  <div class=\"card\" id=\"steps\"></div>
</section>
</main>
<script>
",
    document::TEXT,
    server::TEXT,
    table::TEXT,
    message::TEXT,
    look::TEXT,
    build::TEXT,
    play::TEXT,
    ends::TEXT,
    start::TEXT,
    "</script>
</body>
</html>
",
];
